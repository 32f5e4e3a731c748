// The packing of a trie: each node with children gets a base, so that its children's words stand at base XOR label, no two at one slot.
// Where roots and nodes stand for tokens, what is left in roots and table is the layout of these tokens.
#![tactic(auto)]

ghost use Rattle.std.specs.Prelude.{◌≡◌, List, ℕ, ◌+◌, ◌*◌, ◌<◌, ◌≤◌, length, IfSome};
ghost use Rattle.spec.specs.Token.{Token, id_of};
ghost use Rattle.spec.specs.Trie.{nodes as nodes_of, node_count};
ghost use Rattle.spec.specs.Layout.{puts};
ghost use Rattle.spec.specs.Load.{table_room};
ghost use Rattle.spec.specs.Valid.{Valid};
ghost use Rattle.nodes.specs.Run.{room};
ghost use Rattle.nodes.specs.Stands.{Stands, RootsKept};
ghost use Rattle.nodes.specs.Work.{SameWork};
ghost use Rattle.slots.specs.Marks.{Bounds};
ghost use Rattle.slots.specs.Going.{Within};
ghost use Rattle.slots.specs.Lent.{SameMarks};
ghost use Rattle.words.specs.LayoutAnswer.{PackedAs};
ghost use Rattle.packing.specs.PlaceWalk.{Turn, Walked, Ended};

pub mod layout;

use layout::Based;
use nodes::{Node, Work};
use slots::Front;
use slots::marks::Marks;

// ---- one node

// Places the node whose turn it is, by its labels, which go into the cells lent. Its base goes to its field tail, in place of the link to
// the next node in order. None: no slot within the capacity.
// Kept: nodes and made, as `trie::gather` and `thread_all` take them; `Based` cannot be made before the last node is written.
fn place_node(
    nodes: &mut [Node],
    made: u32,
    node: u32,
    marks: &mut Marks,
    labels: &mut [u8; 256],
    at: Front,
) -> Option<Front>
    requires { (node < made) × (made ≤ room nodes.old) × Within at (length marks.old.used.now) }
    ensures stands { Turn made node nodes.old marks.old at nodes.new marks.new result }
    ensures within { IfSome result (λ front. Within front (length marks.old.used.now)) }
    ensures same { SameMarks marks.old marks.new }
{
    let n = trie::gather(nodes, made, node, labels);
    let base = marks.place(&labels[..n], at.from)?;
    nodes[node as usize].tail = base as u32;
    let used = &mut *marks.used;
    slots::passed(used, at, Some(base))
}

// ---- all nodes

// Places the nodes of a chain through the field tail, one after the other.
fn place_chain(
    nodes: &mut [Node],
    made: u32,
    first: u32,
    marks: &mut Marks,
    labels: &mut [u8; 256],
    at: Front,
) -> Option<Front>
    requires { (made ≤ room nodes.old) × Within at (length marks.old.used.now) }
    ensures stands { Walked made first nodes.old marks.old at nodes.new result }
    ensures within { IfSome result (λ front. Within front (length marks.old.used.now)) }
{
    let mut node = first;
    let mut front = at;
    for _ in 0..made {
        let Some(i) = nodes::link(u64::from(node), made as usize) else {
            return Some(front);
        };
        let next = nodes[i].tail;
        front = place_node(nodes, made, node, marks, labels, front)?;
        node = next;
    }
    Some(front)
}

// Places every node with children, by falling child count, then rising number.
fn place_all(nodes: &mut [Node], made: u32, used: &mut [u64], bases: &mut [u64]) -> Option<Front>
    requires { (1 ≤ made) × (made ≤ room nodes.old) × Bounds used.old bases.old 4 }
    ensures stands { (ts : List Token) (rs : List ℕ) → Valid ts → Stands ts rs nodes.old → made ≡ node_count ts
        → Ended (nodes_of ts) (id_of ts) (puts ts) nodes.new result (length used.old) }
    ensures within { IfSome result (λ front. Within front (length used.old)) }
{
    used.fill(0);
    bases.fill(0);
    let first = trie::thread_all(nodes, made);
    let mut cursors = [0u32; 256];
    let mut labels = [0u8; 256];
    let mut marks = Marks {
        used,
        bases,
        cursors: &mut cursors,
    };
    let at = Front { from: 4, high: 0 };
    place_chain(nodes, made, first, &mut marks, &mut labels, at)
}

// ---- the whole

/// Packs the trie that roots and nodes stand for: the node numbers in the roots become words, and the table gets the layout's words with
/// zeros after them; the answer is how many words the layout has. Nodes and marks are work memory; the marks may hold anything before.
/// None: the table capacity is below the layout's words, and roots and table hold anything.
// Kept: roots and table alone, the two parts that a packing writes; with the memory, three clauses more would say what stays.
#[tactic(auto, unfolding(spec::specs::Load::table_room))]
pub fn pack(work: &mut Work, made: u32, roots: &mut [u64], table: &mut [u64]) -> Option<u32>
    requires { (1 ≤ made) × (made ≤ room work.old.nodes.now) × (65536 ≤ length roots.old) }
    ensures stands { (ts : List Token) → Valid ts → Stands ts roots.old work.old.nodes.now → made ≡ node_count ts
        → PackedAs ts (table_room (length table.old) (length work.old.used.now) (length work.old.used_bases.now))
        roots.old table.old result roots.new table.new }
    ensures kept { RootsKept roots.old roots.new }
    ensures same { SameWork work.old work.new }
{
    let end = slots::words_of_marks(table.len(), work.used.len(), work.used_bases.len());
    if end == 0 {
        return None;
    }
    let nodes = &mut *work.nodes;
    let used = &mut work.used[..end];
    let bases = &mut work.used_bases[..end];
    let front = place_all(nodes, made, used, bases)?;
    table.fill(0);
    let based = Based { nodes, made };
    based.put_words(table);
    based.put_roots(roots);
    Some(words::words_to(front.high))
}
