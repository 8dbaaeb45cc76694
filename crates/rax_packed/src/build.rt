// The bytes of new and of changed nodes.

ghost use Rattle.std.specs.Prelude.{◌≡◌, ◌≢◌, ℕ, ◌+◌, ◌*◌, ◌<◌, ◌≤◌, [], ◌∷◌, ◌++◌, length, replicate};
ghost use Rattle.rax_packed.specs.Nodes.{IsNode, IsRef, Leaf, Inner, node_of, prefix_from, spelled};
ghost use Rattle.std.specs.List.{insert, remove};
ghost use Rattle.byteorder.specs.Endian.{little_bytes, little_number};
ghost use Rattle.rax_packed.specs.Ways.{fork_links, IsInnerBytes, links_in, prefix_in, shortened_by};

use crate::node::{REF_LEN, pack, parts, read_sections};
use arrayvec::ArrayVec;
use blocks::BlockRef;
use byteorder::{ByteOrder, LittleEndian};

/// The most bytes of a node: kind and length, a prefix of fifteen, the count, and 256 links.
const NODE_LEN: usize = 3347;

/// The most bytes of a leaf: kind and length, a prefix of sixteen, and the value.
const LEAF_LEN: usize = 30;

/// The bytes of a node, ready to be written into its block.
pub(crate) type NodeBytes = ArrayVec<u8, NODE_LEN>;

/// The bytes of a leaf, ready to be written into its block.
pub(crate) type LeafBytes = ArrayVec<u8, LEAF_LEN>;

// Appends bytes, for which there is room.
fn append<const N: usize>(bytes: &mut ArrayVec<u8, N>, piece: &[u8])
    requires { length bytes.old.items + length piece.now ≤ N }
    ensures joined { bytes.new.items ≡ bytes.old.items ++ piece.now }
    ensures len { length bytes.new.items ≡ length bytes.old.items + length piece.now }
{
    match bytes.try_extend_from_slice(piece) {
        Ok(()) => {}
        Err(_) => unreachable!(),
    }
}

// Appends the kind and the prefix of a node.
fn begin<const N: usize>(bytes: &mut ArrayVec<u8, N>, kind: u8, prefix: &[u8])
    requires empty { bytes.old.items ≡ [] }
    requires room { 2 + length prefix.now ≤ N }
    requires short { length prefix.now ≤ 16 }
    ensures { bytes.new.items ≡ kind ∷ length prefix.now ∷ prefix.now }
{
    append(bytes, &[kind, prefix.len() as u8]);
    append(bytes, prefix);
}

/// The bytes of a leaf.
pub(crate) fn leaf_bytes(prefix: &[u8], value: BlockRef) -> LeafBytes
    requires { length prefix.now ≤ 16 }
    ensures bytes { result.items ≡ spelled (Leaf prefix.now value) }
    ensures fits { IsRef value }
{
    let mut bytes = LeafBytes::new();
    begin(&mut bytes, 0, prefix);
    append(&mut bytes, &pack(value));
    bytes
}

// The head of an inner node, with so many links.
fn begin_inner(bytes: &mut NodeBytes, prefix: &[u8], count: usize)
    requires empty { bytes.old.items ≡ [] }
    requires short { length prefix.now ≤ 15 }
    requires few { count ≤ 256 }
    ensures head { bytes.new.items ≡ 1 ∷ length prefix.now ∷ (prefix.now ++ little_bytes 2 count) }
    ensures len { length bytes.new.items ≡ 4 + length prefix.now }
{
    begin(bytes, 1, prefix);
    append(bytes, &(count as u16).to_le_bytes());
}

/// The bytes of an inner node with one more link, which comes to this place among the links.
pub(crate) fn widened(bytes: &[u8], place: usize, edge: u8, to: BlockRef) -> NodeBytes
    requires inner { IsInnerBytes bytes.now }
    requires place { place ≤ length (links_in (node_of bytes.now)) }
    requires room { length (links_in (node_of bytes.now)) < 256 }
    ensures bytes { result.items ≡ spelled (Inner (prefix_in (node_of bytes.now)) (insert (links_in (node_of bytes.now)) place (record { edge = edge; to = to }))) }
    ensures fits { IsRef to }
{
    let node = read_sections(bytes);
    let (low, high) = node.edges.split_at(place);
    let (low_refs, high_refs) = node.refs.split_at(REF_LEN * place);
    let mut wider = NodeBytes::new();
    begin_inner(&mut wider, node.prefix, node.edges.len() + 1);
    append(&mut wider, low);
    append(&mut wider, &[edge]);
    append(&mut wider, high);
    append(&mut wider, low_refs);
    append(&mut wider, &pack(to));
    append(&mut wider, high_refs);
    wider
}

/// The bytes of an inner node without the link at a place, and as many zero bytes as it took.
pub(crate) fn narrowed(bytes: &[u8], place: usize) -> NodeBytes
    requires inner { IsInnerBytes bytes.now }
    requires place { place < length (links_in (node_of bytes.now)) }
    ensures { result.items ≡ spelled (Inner (prefix_in (node_of bytes.now)) (remove (links_in (node_of bytes.now)) place)) ++ replicate 13 0 }
{
    let node = read_sections(bytes);
    let (low, high) = node.edges.split_at(place);
    let (low_refs, high_refs) = node.refs.split_at(REF_LEN * place);
    let mut narrower = NodeBytes::new();
    begin_inner(&mut narrower, node.prefix, node.edges.len() - 1);
    append(&mut narrower, low);
    append(&mut narrower, &high[1..]);
    append(&mut narrower, low_refs);
    append(&mut narrower, &high_refs[REF_LEN..]);
    append(&mut narrower, &[0; REF_LEN + 1]);
    narrower
}

/// The bytes of a new inner node of two links, whose edges differ.
pub(crate) fn forked(
    prefix: &[u8],
    node_byte: u8,
    moved: BlockRef,
    other: u8,
    leaf: BlockRef,
) -> NodeBytes
    requires { length prefix.now ≤ 15 }
    ensures bytes { result.items ≡ spelled (Inner prefix.now (fork_links node_byte moved other leaf)) }
    ensures fits { IsRef moved × IsRef leaf }
    ensures byte { node_byte < 256 }
{
    let mut fork = NodeBytes::new();
    begin_inner(&mut fork, prefix, 2);
    if node_byte < other {
        append(&mut fork, &[node_byte, other]);
        append(&mut fork, &pack(moved));
        append(&mut fork, &pack(leaf));
    } else {
        append(&mut fork, &[other, node_byte]);
        append(&mut fork, &pack(leaf));
        append(&mut fork, &pack(moved));
    }
    fork
}

/// The bytes of a node without the first ones of its prefix.
pub(crate) fn shortened(bytes: &[u8], from: usize) -> NodeBytes
    requires few { (rest : ℕ) × IsNode rest bytes.now × (rest ≤ 16) }
    requires from { from ≤ length (prefix_from bytes.now) }
    ensures { result.items ≡ spelled (shortened_by from (node_of bytes.now)) }
{
    let (prefix, body) = parts(bytes);
    let len = body_len(bytes[0], body);
    let mut shorter = NodeBytes::new();
    begin(&mut shorter, bytes[0], &prefix[from..]);
    append(&mut shorter, &body[..len]);
    shorter
}

// How many bytes stand behind the prefix of a node, without the zero bytes at its end.
fn body_len(kind: u8, body: &[u8]) -> usize
    requires { kind ≢ 0 → 2 ≤ length body.now }
    ensures leaf { kind ≡ 0 → result ≡ 12 }
    ensures inner { kind ≢ 0 → result ≡ 2 + 13 * little_number 2 body.now }
{
    if kind == 0 {
        REF_LEN
    } else {
        2 + (REF_LEN + 1) * LittleEndian::read_u16(body) as usize
    }
}
