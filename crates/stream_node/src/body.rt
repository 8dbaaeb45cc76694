// The fields and values of an entry.

ghost use Rattle.std.specs.Prelude.{◌≡◌, ◌≤◌, ◌<◌, ◌∷◌, [], ℕ, List, IfSome, IfNone, length, true, false};
ghost use Rattle.stream_node.specs.Entry.{IsBody};
ghost use Rattle.stream_node.specs.Rest.{rest_of};
ghost use Rattle.stream_node.specs.Pairs.{fields_long, values_long, pair_at, IsSplit, IsUnsplit};
ghost use Rattle.listpack.specs.Element.{element_text};

use crate::head::Head;
use crate::rest::Rest;
use listpack::Element;

/// Where the fields and values of an entry stand.
#[derive(Clone, Copy, Debug)]
pub(crate) struct Body<'a> {
    // Whether the fields are the node's.
    pub(crate) same: bool,
    // How many there are.
    pub(crate) len: usize,
    // From the first field on: the node's fields, or fields and values alternating.
    pub(crate) fields: Rest<'a>,
    // From the first value on, where the fields are the node's.
    pub(crate) values: Rest<'a>,
    ghost all_fields: { fields_long same len ≤ length (rest_of fields) },
    ghost all_values: { values_long same len ≤ length (rest_of values) },
}

impl<'a> Body<'a> {
    ghost use Rattle.stream_node.specs.Reading.{master_of, pairs_of, LacksBody};

    // The values that a list begins with, of an entry whose fields are the node's, and the elements behind it.
    #[inline(always)]
    fn read_values(head: &Head<'a>, list: &Rest<'a>) -> Option<(Body<'a>, Rest<'a>)>
        ensures some { IfSome result (λ x. IsBody true (master_of head.now) (rest_of list.now) (pairs_of x.0) (rest_of x.1)) }
        ensures same { IfSome result (λ x. x.0.same ≡ true) }
        ensures none { IfNone result (LacksBody true (master_of head.now) (rest_of list.now)) }
    {
        let len = head.count;
        let end = list.skip(len)?;
        let behind = end.skip_number(len + 3)?;
        let body = Body {
            same: true,
            len,
            fields: head.fields,
            values: *list,
        };
        Some((body, behind))
    }

    // The number of pairs and the pairs that a list begins with, and the elements behind the entry.
    #[inline(always)]
    fn read_pairs(head: &Head<'a>, list: &Rest<'a>) -> Option<(Body<'a>, Rest<'a>)>
        ensures some { IfSome result (λ x. IsBody false (master_of head.now) (rest_of list.now) (pairs_of x.0) (rest_of x.1)) }
        ensures same { IfSome result (λ x. x.0.same ≡ false) }
        ensures none { IfNone result (LacksBody false (master_of head.now) (rest_of list.now)) }
    {
        let (len, fields) = list.split_count()?;
        if len == 0 {
            return None;
        }
        let end = fields.skip(2 * len)?;
        let behind = end.skip_number(2 * len + 4)?;
        let body = Body {
            same: false,
            len,
            fields,
            values: fields,
        };
        Some((body, behind))
    }

    /// The body that a list begins with, and the elements behind the entry.
    #[inline(always)]
    pub(crate) fn read(head: &Head<'a>, same: bool, list: &Rest<'a>) -> Option<(Body<'a>, Rest<'a>)>
        ensures some { IfSome result (λ x. IsBody same (master_of head.now) (rest_of list.now) (pairs_of x.0) (rest_of x.1)) }
        ensures none { IfNone result (LacksBody same (master_of head.now) (rest_of list.now)) }
    {
        if same {
            Body::read_values(head, list)
        } else {
            Body::read_pairs(head, list)
        }
    }

    /// How many pairs there are.
    pub(crate) fn len(&self) -> usize
        ensures { result ≡ length (pairs_of self.now) }
    {
        self.len
    }

    /// The field at an index.
    pub(crate) fn field(&self, index: usize) -> Element<'a>
        requires { index < length (pairs_of self.now) }
        ensures { element_text result ≡ (pair_at (pairs_of self.now) index).0 }
    {
        if self.same {
            self.fields.element(index)
        } else {
            self.fields.element(2 * index)
        }
    }

    /// The value at an index.
    pub(crate) fn value(&self, index: usize) -> Element<'a>
        requires { index < length (pairs_of self.now) }
        ensures { element_text result ≡ (pair_at (pairs_of self.now) index).1 }
    {
        if self.same {
            self.values.element(index)
        } else {
            self.fields.element(2 * index + 1)
        }
    }

    // The first field and the first value, and what is behind them.
    fn split_pair(&self) -> Option<(Element<'a>, Element<'a>, Rest<'a>, Rest<'a>)>
        ensures some { IfSome result (λ x. IsSplit self.now.same (rest_of self.now.fields) (rest_of self.now.values) (element_text x.0, element_text x.1) (rest_of x.2) (rest_of x.3)) }
        ensures none { IfNone result (IsUnsplit self.now.same (rest_of self.now.fields) (rest_of self.now.values)) }
    {
        let (field, behind) = self.fields.split_first()?;
        if self.same {
            let (value, values) = self.values.split_first()?;
            Some((field, value, behind, values))
        } else {
            let (value, fields) = behind.split_first()?;
            Some((field, value, fields, self.values))
        }
    }

    /// The first field and value, and the pairs behind them.
    pub(crate) fn split_first(&self) -> Option<(Element<'a>, Element<'a>, Body<'a>)>
        ensures some { IfSome result (λ x. pairs_of self.now ≡ (element_text x.0, element_text x.1) ∷ pairs_of x.2) }
        ensures none { IfNone result (pairs_of self.now ≡ []) }
    {
        if self.len == 0 {
            return None;
        }
        match self.split_pair() {
            Some((field, value, fields, values)) => Some((
                field,
                value,
                Body {
                    same: self.same,
                    len: self.len - 1,
                    fields,
                    values,
                },
            )),
            None => unreachable!(),
        }
    }
}
