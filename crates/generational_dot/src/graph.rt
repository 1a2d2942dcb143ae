//! Graphs that are being written.

ghost use Rattle.std.specs.Prelude.{◌≡◌, ◌++◌, [], IfSome, IfOk, OnOk, codes, string_bytes};
ghost use Rattle.std.specs.Io.KnownBytes.{Appends};
ghost use Rattle.generational_dot.specs.Graphs.{bytes_held};
ghost use Rattle.generational_dot.specs.Texts.{begin_text, edge_text, escaped, look_text, node_text, quoted};

use crate::escape::push_escaped;
use std::alloc::Global;
use std::fmt::Display;
use std::io;
use std::io::Write;

/// Where the edges of a graph lead.
#[derive(Clone, Copy, Debug, PartialEq, Eq)]
pub enum Flow {
    /// Down. The edges from a node leave it from left to right, in the order in which they are written.
    Down,
    /// To the right.
    Right,
}

/// What a node looks like.
#[derive(Clone, Copy, Debug, PartialEq, Eq)]
pub enum Look {
    /// A box.
    Box,
    /// A dashed box, like that of a node that has edges only.
    Dashed,
    /// An ellipse.
    Round,
}

/// What an edge looks like.
#[derive(Clone, Copy, Debug, PartialEq, Eq)]
pub enum Line {
    /// A solid line.
    Solid,
    /// A dotted line.
    Dotted,
}

/// A graph that is being written as DOT. Names and labels may be any texts: they are escaped.
///
/// Each node and each edge is written by one call of `write_all`. If a call fails, a part of the text may
/// have been written.
#[derive(Drop)]
pub struct Graph<'a, W> {
    out: &'a mut W,
    /// The text that is to be escaped.
    pub(crate) text: String,
    line: Vec<u8>,
}

impl<'a, W: Write> Graph<'a, W> {
    /// Begins a graph. Doesn't allocate.
    pub fn begin(alloc: Global, out: &'a mut W, flow: Flow) -> io::Result<Graph<'a, W>>
        ensures { IfOk result (λ graph. Appends (W.contents out.old) (bytes_held W.contents graph) (begin_text flow)) }
    {
        out.write_all(match flow {
            Flow::Down => b"digraph {\n    ordering=out;\n".as_slice(),
            Flow::Right => b"digraph {\n    rankdir=LR;\n".as_slice(),
        })?;
        out.write_all(b"    node [shape=box, style=dashed, fontname=\"sans-serif\"];\n")?;
        Ok(Graph {
            out,
            text: String::new(alloc),
            line: Vec::new(alloc),
        })
    }

    /// Writes a node with a label, whose lines are centered.
    pub fn node<N: Display + Drop, L: Display + Drop>(
        &mut self,
        name: N,
        look: Look,
        label: L,
    ) -> io::Result<()>
        ensures { OnOk result (IfSome (N.output name) (λ n. IfSome (L.output label) (λ l.
            Appends (bytes_held W.contents self.old) (bytes_held W.contents self.new) (node_text look n l)))) }
    {
        self.begin_node(name, look)?;
        write!(self.text, "{label}")?;
        self.end_node()
    }

    /// Writes an edge from a node to another. A node that isn't written itself is drawn as a dashed box
    /// with its name.
    pub fn edge<A: Display + Drop, B: Display + Drop>(
        &mut self,
        from: A,
        to: B,
        line: Line,
    ) -> io::Result<()>
        ensures { OnOk result (IfSome (A.output from) (λ a. IfSome (B.output to) (λ b.
            Appends (bytes_held W.contents self.old) (bytes_held W.contents self.new) (edge_text line a b)))) }
    {
        self.begin_line(from)?;
        self.line.extend_from_slice(b" -> ")?;
        self.push_name(to)?;
        self.end_line(match line {
            Line::Solid => ";\n",
            Line::Dotted => " [style=dotted];\n",
        })
    }

    /// Ends the graph. Doesn't allocate.
    pub fn end(self) -> io::Result<()> {
        self.out.write_all(b"}\n")
    }

    /// Begins the line of a node, up to its label, which is made in `text` then.
    pub(crate) fn begin_node<N: Display + Drop>(&mut self, name: N, look: Look) -> io::Result<()>
        ensures line { OnOk result (IfSome (N.output name) (λ n.
            self.new.line.items ≡ (codes "    " ++ quoted n) ++ look_text look)) }
        ensures text { OnOk result (string_bytes self.new.text ≡ []) }
        ensures same { self.new.out.now ≡ self.old.out.now }
    {
        self.begin_line(name)?;
        self.line.extend_from_slice(match look {
            Look::Box => b" [style=solid, label=\"".as_slice(),
            Look::Dashed => b" [label=\"".as_slice(),
            Look::Round => b" [shape=ellipse, style=solid, label=\"".as_slice(),
        })?;
        self.text.clear();
        Ok(())
    }

    /// Ends the line of a node with the label in `text`, and writes it.
    pub(crate) fn end_node(&mut self) -> io::Result<()>
        ensures { OnOk result (Appends (bytes_held W.contents self.old) (bytes_held W.contents self.new)
            (self.old.line.items ++ (escaped (string_bytes self.old.text) ++ codes "\"];\n"))) }
    {
        push_escaped(&mut self.line, self.text.as_str())?;
        self.end_line("\"];\n")
    }

    // Begins a line with a node's name.
    fn begin_line<N: Display + Drop>(&mut self, name: N) -> io::Result<()>
        ensures line { OnOk result (IfSome (N.output name) (λ n.
            self.new.line.items ≡ codes "    " ++ quoted n)) }
        ensures same { self.new.out.now ≡ self.old.out.now }
    {
        self.line.clear();
        self.line.extend_from_slice(b"    ")?;
        self.push_name(name)
    }

    // Appends a node's name, in quotes.
    fn push_name<N: Display + Drop>(&mut self, name: N) -> io::Result<()>
        ensures line { OnOk result (IfSome (N.output name) (λ n.
            self.new.line.items ≡ self.old.line.items ++ quoted n)) }
        ensures same { self.new.out.now ≡ self.old.out.now }
    {
        self.text.clear();
        write!(self.text, "{name}")?;
        self.line.extend_from_slice(b"\"")?;
        push_escaped(&mut self.line, self.text.as_str())?;
        self.line.extend_from_slice(b"\"")?;
        Ok(())
    }

    // Ends the line, and writes it.
    fn end_line(&mut self, end: &str) -> io::Result<()>
        ensures { OnOk result (Appends (bytes_held W.contents self.old) (bytes_held W.contents self.new)
            (self.old.line.items ++ end.now)) }
    {
        self.line.extend_from_slice(end.as_bytes())?;
        self.out.write_all(self.line.as_slice())
    }
}
