//! The rules of the protocol that a stream can break.

ghost use Rattle.std.specs.Prelude.{◌≡◌};
ghost use Rattle.resp_frames.specs.Rules.{rule_number};

use thiserror::Error;

/// What is wrong where a stream breaks a rule of the protocol. The rules are numbered from P1 on.
#[derive(Clone, Copy, Debug, PartialEq, Eq, Error)]
pub enum Rule {
    /// The number of words isn't canonical, or is above 1,048,576.
    #[error("invalid multibulk length")]
    InvalidMultibulkLength = 1,
    /// Another byte stands where `$` is due.
    #[error("expected '$'")]
    ExpectedDollar = 2,
    /// The length of a word isn't canonical, is below 0 or above 536,870,912.
    #[error("invalid bulk length")]
    InvalidBulkLength = 3,
    /// 65,537 bytes of a header hold no CR, or of an inline request no LF.
    #[error("line too long")]
    LineTooLong = 4,
    /// CR isn't followed by LF, or a word by CR LF.
    #[error("expected CR LF")]
    ExpectedCrLf = 5,
    /// A whole inline request holds a quote.
    #[error("inline request not taken")]
    QuotedInline = 6,
}

impl Rule {
    /// The number of the rule, 1 to 6.
    pub fn number(self) -> u8
        ensures { result ≡ rule_number self }
    {
        self as u8
    }
}
