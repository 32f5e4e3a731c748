// The words of the table and of the roots, once each node's base stands in its field tail.
ghost use Rattle.std.specs.Prelude.{◌≡◌, ◌-◌, ◌≤◌, length};
ghost use Rattle.spec.specs.Lists.{fold};
ghost use Rattle.laws.specs.Fill.{write};
ghost use Rattle.nodes.specs.Run.{room, see};
ghost use Rattle.words.specs.NodeWords.{child_writes, node_writes, root_word, root_words};

use nodes::{Children, Node};

/// The nodes that are made, node 0 counted, each with its base in its field tail.
#[derive(Clone, Copy)]
pub struct Based<'a> {
    pub nodes: &'a [Node],
    pub made: u32,
    pub ghost there: { made ≤ room nodes.now },
}

impl Based<'_> {
    /// The words of the children of a node with this base, each at base XOR label; head is the first child.
    pub fn put_children(self, table: &mut [u64], base: usize, head: u32)
        ensures { table.new
            ≡ fold write table.old (child_writes (see self.entry.nodes.now) self.entry.made base 256 head) }
    {
        for (_, child) in Children::new(&self.nodes[..self.made as usize], head, 256) {
            words::put_child(table, base, child);
        }
    }

    /// The words of all children.
    pub fn put_words(self, table: &mut [u64])
        ensures { table.new
            ≡ fold write table.old (node_writes (see self.entry.nodes.now) self.entry.made (self.entry.made - 1) 1) }
    {
        let Some((_, nodes)) = self.nodes[..self.made as usize].split_first() else {
            return;
        };
        for n in nodes {
            self.put_children(table, n.tail as usize, n.head);
        }
    }

    // The word of a root that holds a node's number; 0 if it holds none of those made.
    fn word_of_root(self, root: u64) -> u64
        ensures { result ≡ root_word (see self.entry.nodes.now) self.entry.made root }
    {
        let Some(i) = nodes::link(root, self.made as usize) else {
            return 0;
        };
        words::root_word_of(self.nodes[i])
    }

    /// Each of the 65,536 roots becomes the word of its node.
    pub fn put_roots(self, roots: &mut [u64])
        requires { 65536 ≤ length roots.old }
        ensures { roots.new
            ≡ root_words (root_word (see self.entry.nodes.now) self.entry.made) roots.old }
    {
        for root in &mut roots[..65536] {
            *root = self.word_of_root(*root);
        }
    }
}
