ghost use Rattle.std.specs.Prelude.{Some};
ghost use Rattle.procedure.specs.Procedures.{drawing};
ghost use Rattle.text.specs.Reports.{node_row, arrow_row, listing};

use crate::accepted_line::AcceptedLine;
use crate::arrow_line::ArrowLine;
use crate::each::{Each, Numbered};
use crate::node_line::NodeLine;
use notation::arrow::Arrow;
use notation::node::Node;
use procedure::procedure::Procedure;
use std::fmt;

/// What a sound file holds: a first line, and a line for each node and each arrow.
#[derive(Clone, Copy)]
pub struct Listing<'a>(pub &'a Procedure);

impl fmt::Display for Listing<'_> {
    ghost output = { λ x. Some (listing (drawing x.0.now)) };

    fn fmt<W: fmt::Write>(&self, f: &mut fmt::Formatter<W>) -> fmt::Result {
        let first = AcceptedLine {
            nodes: self.0.node_count(),
            arrows: self.0.arrow_count(),
        };
        let nodes = Each {
            first: 0,
            elements: self.0.nodes(),
        };
        let arrows = Each {
            first: 0,
            elements: self.0.arrows(),
        };
        write!(f, "{first}\n{nodes}{arrows}")
    }
}

/// A node's line, with its end.
impl Numbered for Node {
    ghost text = { node_row };

    fn fmt_numbered<W: fmt::Write>(&self, number: usize, f: &mut fmt::Formatter<W>) -> fmt::Result {
        writeln!(f, "{}", NodeLine { number, node: self })
    }
}

/// An arrow's line, with its end.
impl Numbered for Arrow {
    ghost text = { arrow_row };

    fn fmt_numbered<W: fmt::Write>(&self, number: usize, f: &mut fmt::Formatter<W>) -> fmt::Result {
        writeln!(
            f,
            "{}",
            ArrowLine {
                number,
                arrow: self
            }
        )
    }
}
