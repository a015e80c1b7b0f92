// What the builder's calls ask of a handle and of an index before they make a node.
ghost use Rattle.std.specs.Prelude.{◌≡◌, ◌*◌, ◌≤◌, length};
ghost use Rattle.node_table.specs.Tests.{no_node, past_index};

// The highest column, challenge or alpha index.
const MOST_INDEX: usize = 65535;

// Whether an id and a dim are no node's of the first n.
pub fn is_no_node(nodes: &[u32], n: usize, id: u32, dim: u32) -> bool
    requires { 4 * n ≤ length nodes.now }
    ensures { result ≡ no_node nodes.now n id dim }
{
    let i = id as usize;
    n <= i || nodes[4 * i + 3] != dim
}

pub fn past_index(index: usize) -> bool
    ensures { result ≡ past_index index }
{
    MOST_INDEX < index
}
