use notation::arrow::Arrow;
use notation::node::Node;

/// What a record tells.
#[derive(Clone, Copy)]
pub enum Entry {
    Node(Node),
    Arrow(Arrow),
}
