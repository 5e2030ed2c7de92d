// Reads the fields of a grammar image. Every function answers for every byte string and every number: a byte past the end reads
// as 0. Which bits are which field is said in the crate `grammar`, specs/Image.antt.
#![tactic(auto)]

ghost use Rattle.std.specs.Prelude.{◌≡◌, ◌/◌, ◌^◌, ◌<◌, ◌≤◌, length, replicate};
ghost use Rattle.grammar.specs.Image.{nodes, byte_at, word16, word32, node_word, fields_of, fields_at, node};
ghost use Rattle.image.specs.Fields.{HeaderFields, RuleFields, SameFields};
ghost use Rattle.image.specs.Linked.{linked_from, LinkedWords};

use grammar::{Node, NodeFields, field};

// "Header, 32 bits: edition 4 (always 1), rules 8, nodes 12, start rule 8."
#[derive(Clone, Copy)]
pub struct Header {
    pub edition: usize,
    pub rules: usize,
    pub nodes: usize,
    pub start: usize,
}

// "One 16-bit word per rule: zero 4, root node 12."
#[derive(Clone, Copy)]
pub struct Rule {
    pub zero: usize,
    pub root: usize,
}

// The byte at a place, 0 past the end.
fn byte_at(bytes: &[u8], at: usize) -> u8
    ensures { result ≡ byte_at bytes.now at }
{
    bytes.get(at).copied().unwrap_or(0)
}

// The two bytes from a place on as a number, the first byte highest.
fn word16_at(bytes: &[u8], at: usize) -> u16
    ensures { result ≡ word16 bytes.now at }
{
    if bytes.len() <= at {
        return 0;
    }
    u16::from_be_bytes([byte_at(bytes, at), byte_at(bytes, at + 1)])
}

// The four bytes from a place on as a number, the first byte highest.
// It stands beside `word16_at`: one array of N bytes for both needs a clause over its places and a proof of that. These need none.
fn partial_word32_at(bytes: &[u8], at: usize) -> u32
    ensures { result ≡ word32 bytes.now at }
{
    if bytes.len() <= at {
        return 0;
    }
    u32::from_be_bytes([
        byte_at(bytes, at),
        byte_at(bytes, at + 1),
        byte_at(bytes, at + 2),
        byte_at(bytes, at + 3),
    ])
}

// The same, with one test where all four bytes are there: the compiler then makes one load of them.
fn word32_at(bytes: &[u8], at: usize) -> u32
    ensures { result ≡ word32 bytes.now at }
{
    if bytes.len() < 4 {
        return partial_word32_at(bytes, at);
    }
    if bytes.len() - 4 < at {
        return partial_word32_at(bytes, at);
    }
    u32::from_be_bytes([bytes[at], bytes[at + 1], bytes[at + 2], bytes[at + 3]])
}

// The fields of the header.
pub fn header_of(image: &[u8]) -> Header
    ensures { HeaderFields image.now result }
{
    let word = u64::from(word32_at(image, 0));
    Header {
        edition: field(word, 28, 4),
        rules: field(word, 20, 8),
        nodes: field(word, 8, 12),
        start: field(word, 0, 8),
    }
}

// The fields of a rule's word.
pub fn rule_at(image: &[u8], rule: usize) -> Rule
    ensures { RuleFields image.now rule result }
{
    if image.len() / 2 <= rule {
        return Rule { zero: 0, root: 0 };
    }
    let word = u64::from(word16_at(image, 4 + 2 * rule));
    Rule {
        zero: field(word, 12, 4),
        root: field(word, 0, 12),
    }
}

// A node's word.
pub fn node_word(image: &[u8], node: usize) -> u32
    ensures { result ≡ node_word image.now node }
{
    if image.len() / 4 <= node {
        return 0;
    }
    word32_at(image, 4 + 2 * header_of(image).rules + 4 * node)
}

// The fields of a word that is a node's, its kind as a number: a call's field B in a linked word, which a `Node` leaves out, is asked too.
pub fn node_of(word: u32) -> NodeFields
    ensures { SameFields result (fields_of word) }
{
    let word = u64::from(word);
    NodeFields {
        kind: field(word, 28, 4),
        zero: field(word, 24, 4),
        a: field(word, 12, 12),
        b: field(word, 0, 12),
    }
}

// The first byte of a node's word: "kind 4, zero 4". The evaluator asks it where the kind alone is enough: measured, it saves a
// call in most visits.
pub fn first_byte(word: u32) -> usize
    ensures { result ≡ word / 2 ^ 24 }
{
    field(u64::from(word), 24, 8)
}

// It is the kind alone where the zero bits are 0. That of any,
pub const ANY: usize = 0x10;

// and that of a byte range without the fold bit.
pub const PLAIN_RANGE: usize = 0x20;

// The fields of a node's word.
pub fn node_at(image: &[u8], node: usize) -> NodeFields
    ensures { SameFields result (fields_at image.now node) }
{
    node_of(node_word(image, node))
}

// What a node's word stands for.
pub fn node(image: &[u8], n: usize) -> Node
    ensures { result ≡ node image.now n }
{
    Node::from(node_at(image, n))
}

// A node's word, a call's with the root of the called rule for field B, which is 0 in a lawful image.
// `as` goes from `u32` to `usize`, for which std has no `From`, and back: what it narrows is below 2^32.
pub fn linked_word(image: &[u8], word: u32) -> u32
    ensures { result ≡ linked_from image.now word }
{
    let fields = node_of(word);
    let Node::Call(rule) = Node::from(fields) else {
        return word;
    };
    let body = rule_at(image, rule);
    (word as usize - fields.b + body.root) as u32
}

// The nodes' linked words, in a slice of zeros; 0 stays in the places past the last node.
pub fn link_words(image: &[u8], words: &mut [u32])
    requires { (nodes image.now ≤ length words.old) × (words.old ≡ replicate (length words.old) 0) }
    ensures { LinkedWords image.now words.new }
{
    let header = header_of(image);
    for (n, word) in words[..header.nodes].iter_mut().enumerate() {
        *word = linked_word(image, node_word(image, n));
    }
}
