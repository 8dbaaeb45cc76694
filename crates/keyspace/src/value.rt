ghost use Rattle.std.specs.Prelude.{◌≡◌, ℕ, [], IfOk, OnErr, IfSome, IfNone};
ghost use Rattle.std.specs.List.{Contains};
ghost use Rattle.blocks.specs.Blocks.{Blocks, Changes, Owned, Served};
ghost use Rattle.object_codec.specs.declared.limits.Limits.{Limits};
ghost use Rattle.plain_model.specs.KeySteps.{type_name, encodings};
ghost use Rattle.keyspace.specs.Values.{value_of, value_refs, IsSound, IsText, IsEncodedAs, IsLike};

use blocks::{BlockStore, Memory};
use hash_object::Fields;
use plain_model::Line;
use quicklist::Quick;
use set_object::Members;
use stream_object::Stream;
use string_object::Text;
use zset_object::Scored;

/// A value. It owns its blocks in the store that each call is lent, and no other block.
#[derive(Drop)]
pub enum Value {
    Text(Text),
    List(Box<Quick>),
    Set(Box<Members>),
    Hash(Box<Fields>),
    Zset(Box<Scored>),
    Stream(Box<Stream>),
}

// A million keys each carry one.
const _: () = prove!(size_of::<Value>() <= 24);

impl Value {
    /// The string that it is.
    pub fn as_text(&self) -> Option<&Text>
        ensures some { IfSome result (λ text. self.now ≡ Value.Text text.now) }
        ensures none { IfNone result (¬ (IsText self.now)) }
    {
        match self {
            Value::Text(text) => Some(text),
            Value::List(_) | Value::Set(_) | Value::Hash(_) | Value::Zset(_) | Value::Stream(_) =>
                None,
        }
    }

    /// The string that it is. It asks for one.
    pub fn into_text(self) -> Text
        requires { IsText self }
        ensures { self ≡ Value.Text result }
    {
        match self {
            Value::Text(text) => text,
            Value::List(_) | Value::Set(_) | Value::Hash(_) | Value::Zset(_) | Value::Stream(_) =>
                unreachable!(),
        }
    }

    /// The name of its type.
    pub fn type_name(&self) -> Line
        ensures { (blocks : Blocks) → type_name (value_of blocks self.now) ≡ result }
    {
        match self {
            Value::Text(_) => Line::string(),
            Value::List(_) => Line::list(),
            Value::Set(_) => Line::set(),
            Value::Hash(_) => Line::hash(),
            Value::Zset(_) => Line::zset(),
            Value::Stream(_) => Line::stream(),
        }
    }

    /// The name of its encoding.
    #[tactic(auto, using(crate::proofs::Uses::encoding_known))]
    pub fn encoding<B: BlockStore>(&self, store: &B) -> &'static str
        requires owned { Owned (value_refs (B.blocks store.now) self.now) (B.blocks store.now) }
        requires sound { (limits : Limits) × (seed : ℕ) × IsSound limits seed (B.blocks store.now) self.now }
        ensures is { IsEncodedAs (B.blocks store.now) self.now result.now }
        ensures known { Contains (encodings (value_of (B.blocks store.now) self.now)) result.now }
    {
        match self {
            Value::Text(text) => text.name(store).text(),
            Value::List(list) => list.form().text(),
            Value::Set(members) => members.form().text(),
            Value::Hash(fields) => fields.form().text(),
            Value::Zset(scored) => scored.form().text(),
            Value::Stream(log) => log.form().text(),
        }
    }
}
