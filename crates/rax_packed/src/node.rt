// The nodes of the tree, read where they stand.

ghost use Rattle.std.specs.Prelude.{◌≡◌, ◌≢◌, suc, ◌+◌, ◌*◌, ◌<◌, ◌≤◌, length, take, drop, slice_index};
ghost use Rattle.rax_packed.specs.Nodes.{IsNode, IsRef, edges_of, refs_bytes, node_of, ref_bytes, ref_from, prefix_from, body_from};
ghost use Rattle.byteorder.specs.Endian.{little_number};
ghost use Rattle.rax_packed.specs.Ways.{IsWay, IsInnerBytes, prefix_in, links_in};

use blocks::BlockRef;
use byteorder::{ByteOrder, LittleEndian};

/// How many bytes a reference takes.
pub(crate) const REF_LEN: usize = 12;

/// How a key goes on at a node.
#[derive(Clone, Copy)]
pub(crate) enum Way {
    /// The node is the key's leaf, which has this value.
    Leaf(BlockRef),
    /// The key leaves the node's prefix behind so many bytes of it.
    Parts(usize),
    /// No link has the key's next byte. The place for it among the links, and where the rest of the key begins.
    Missing(usize, usize),
    /// The link with this number leads on, where the rest of the key begins, and to which node.
    Link(usize, usize, BlockRef),
}

// The reference in the first twelve bytes.
fn read_ref(bytes: &[u8]) -> BlockRef
    requires { 12 ≤ length bytes.now }
    ensures { result ≡ ref_from bytes.now }
{
    BlockRef {
        slab: LittleEndian::read_u64(bytes) as usize,
        slot: LittleEndian::read_u32(&bytes[8..]),
    }
}

/// The twelve bytes of a reference.
pub(crate) fn pack(r: BlockRef) -> [u8; REF_LEN]
    ensures bytes { result ≡ ref_bytes r }
    ensures fits { IsRef r }
{
    let mut bytes = [0; REF_LEN];
    LittleEndian::write_u64(&mut bytes, r.slab as u64);
    LittleEndian::write_u32(&mut bytes[8..], r.slot);
    bytes
}

// How many bytes both begin with alike.
fn common(prefix: &[u8], key: &[u8]) -> usize
    ensures prefix { result ≤ length prefix.now }
    ensures key { result ≤ length key.now }
    ensures alike { take result prefix.now ≡ take result key.now }
    ensures apart { result < length prefix.now → result < length key.now
        → slice_index prefix.now result ≢ slice_index key.now result }
{
    let mut shared = 0;
    while shared < prefix.len() && shared < key.len() && prefix[shared] == key[shared] {
        shared += 1;
    }
    shared
}

// The prefix of a node, and what stands behind it.
pub(crate) fn parts(bytes: &[u8]) -> (&[u8], &[u8])
    requires { 2 + slice_index bytes.now 1 ≤ length bytes.now }
    ensures prefix { result.0.now ≡ prefix_from bytes.now }
    ensures body { result.1.now ≡ body_from bytes.now }
{
    let len = bytes[1] as usize;
    bytes[2..].split_at(len)
}

// The edges of an inner node, and its references with what stands behind them, from what stands behind its prefix.
pub(crate) fn links(body: &[u8]) -> (&[u8], &[u8])
    requires { 2 + little_number 2 body.now ≤ length body.now }
    ensures edges { result.0.now ≡ take (little_number 2 body.now) (drop 2 body.now) }
    ensures refs { result.1.now ≡ drop (little_number 2 body.now) (drop 2 body.now) }
{
    let count = LittleEndian::read_u16(body) as usize;
    body[2..].split_at(count)
}

/// The prefix of an inner node, the edges of its links, and their references.
#[derive(Clone, Copy)]
pub(crate) struct Sections<'a> {
    pub(crate) prefix: &'a [u8],
    pub(crate) edges: &'a [u8],
    pub(crate) refs: &'a [u8],
}

// The references of so many links.
fn first_refs(refs: &[u8], count: usize) -> &[u8]
    requires { 12 * count ≤ length refs.now }
    ensures refs { result.now ≡ take (12 * count) refs.now }
    ensures len { length result.now ≡ 12 * count }
{
    &refs[..REF_LEN * count]
}

/// The sections of an inner node.
pub(crate) fn read_sections(bytes: &[u8]) -> Sections<'_>
    requires { IsInnerBytes bytes.now }
    ensures prefix { result.prefix.now ≡ prefix_in (node_of bytes.now) }
    ensures edges { result.edges.now ≡ edges_of (links_in (node_of bytes.now)) }
    ensures refs { result.refs.now ≡ refs_bytes (links_in (node_of bytes.now)) }
    ensures short { length result.prefix.now ≤ 15 }
    ensures count { length result.edges.now ≡ length (links_in (node_of bytes.now)) }
    ensures few { length result.edges.now ≤ 256 }
    ensures refs_len { length result.refs.now ≡ 12 * length result.edges.now }
{
    let (prefix, body) = parts(bytes);
    let (edges, refs) = links(body);
    Sections {
        prefix,
        edges,
        refs: first_refs(refs, edges.len()),
    }
}

// The reference of a link, from the references of all.
pub(crate) fn link(refs: &[u8], place: usize) -> BlockRef
    requires { 12 * place + 12 ≤ length refs.now }
    ensures { result ≡ ref_from (drop (12 * place) refs.now) }
{
    read_ref(&refs[REF_LEN * place..])
}

/// How a key goes on at a node, of which the key's rest begins where the node's prefix does.
pub(crate) fn way_of(bytes: &[u8], rest: &[u8]) -> Way
    requires { IsNode (length rest.now) bytes.now }
    ensures { IsWay (node_of bytes.now) rest.now result }
{
    let (prefix, body) = parts(bytes);
    let shared = common(prefix, rest);
    if shared < prefix.len() {
        return Way::Parts(shared);
    }
    if bytes[0] == 0 {
        return Way::Leaf(read_ref(body));
    }
    let (edges, refs) = links(body);
    match edges.binary_search(&rest[shared]) {
        Ok(place) => Way::Link(place, shared + 1, link(refs, place)),
        Err(place) => Way::Missing(place, shared + 1),
    }
}
