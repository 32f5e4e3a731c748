// The words of the layout: a node's word once its base stands in its field tail, its place in the table, and how many words there are.
// Nodes come by value: no function here is lent them.
#![tactic(auto)]

ghost use Rattle.std.specs.Prelude.{◌≡◌, ◌+◌, ◌*◌, ◌<◌, set};
ghost use Rattle.std.specs.Int.Bits.{bit_xor};
ghost use Rattle.spec.specs.Layout.{pack};
ghost use Rattle.words.specs.NodeWords.{node_word, as_root};

use nodes::Node;

/// Base, id and incoming byte as one word.
#[tactic(auto, using(crate::proofs::WordTurns::shifted))]
pub fn pack_word(base: u32, term: u16, label: u8) -> u64
    ensures { result ≡ pack base term label }
{
    u64::from(base) << 32 | (u64::from(term) << 8 | u64::from(label))
}

/// The word of a node, with the byte that leads to it.
#[tactic(auto, unfolding(crate::specs::NodeWords::node_word))]
pub fn word_of(n: Node, label: u8) -> u64
    ensures { result ≡ node_word n label }
{
    pack_word(n.tail, n.term, label)
}

/// The word of a node as a root: no byte leads to it.
pub fn root_word_of(n: Node) -> u64
    ensures { result ≡ as_root n }
{
    word_of(n, 0)
}

/// The word of a child, at base XOR label, if the table has that slot.
pub fn put_child(table: &mut [u64], base: usize, n: Node)
    ensures { table.new ≡ set table.old (bit_xor base n.label) (node_word n n.label) }
{
    copies::put(table, base ^ usize::from(n.label), word_of(n, n.label));
}

/// How many words a layout has whose highest block this is.
pub fn words_to(high: usize) -> u32
    requires { high < 16777215 }
    ensures { result ≡ 256 * (1 + high) }
{
    256 * (1 + high) as u32
}
