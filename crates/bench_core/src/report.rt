// The report of an ended run.
use grammar::tree::{Basic, Range};
use programs::program::{Leaf, Program};
use programs::types::Shape;
use runs::run::Run;
use runs::value::{Item, Value};
use texts::text::Text;

// A report as it is written. No `Display`: its contract cannot say that a writer never fails.
#[derive(Drop)]
struct Report<'a> {
    program: &'a Program,
    value: &'a Value,
    text: Text,
}

impl Report<'_> {
    // The type of a node, one with at most `left` leaves.
    #[cycle(type_text)]
    fn push_type(&mut self, node: usize, left: usize) {
        match self.program.typed(node).shape {
            Shape::Basic(Basic::Unit) => self.text.push_all(b"unit"),
            Shape::Basic(Basic::Bit) => self.text.push_all(b"bit"),
            Shape::Basic(Basic::Int) => self.text.push_all(b"int"),
            Shape::Basic(Basic::Qbit) => self.text.push_all(b"qbit"),
            Shape::Tuple(parts) => {
                self.text.push(b'(');
                self.push_types(parts, left);
                self.text.push(b')');
            }
        }
    }

    // The types of a tuple's parts; each has fewer leaves than the tuple.
    #[cycle(type_text)]
    fn push_types(&mut self, parts: Range, left: usize) {
        for (before, part) in parts.numbers().rev().enumerate() {
            if before > 0 {
                self.text.push_all(b", ");
            }
            let node = self.program.part(part);
            let leaves = self.program.typed(node).leaves;
            if leaves < left {
                self.push_type(node, leaves);
            }
        }
    }

    fn push_leaf(&mut self, leaf: Leaf) {
        match leaf {
            Leaf::Unit => self.text.push_all(b"()"),
            Leaf::Bit(false) => self.text.push_all(b"zero"),
            Leaf::Bit(true) => self.text.push_all(b"one"),
            Leaf::Int(n) => self.text.push_decimal(u64::from(n)),
            Leaf::Handle(handle) => {
                self.text.push(b'q');
                self.text.push_decimal(u64::from(handle));
            }
        }
    }

    // The part of the value that begins at `from`.
    #[cycle(value_text)]
    fn push_value(&mut self, from: usize) {
        match self.value.item(from) {
            Item::Leaf(leaf) => self.push_leaf(leaf),
            Item::Tuple(count) => {
                self.text.push(b'(');
                self.push_values(from + 1, usize::from(count));
                self.text.push(b')');
            }
        }
    }

    // So many parts of the value, of which the first begins at `first`.
    // Each part begins where the one before ends.
    #[cycle(value_text)]
    fn push_values(&mut self, first: usize, count: usize) {
        let mut from = first;
        for before in 0..count {
            if before > 0 {
                self.text.push_all(b", ");
            }
            self.push_value(from);
            from = self.value.end(from);
        }
    }
}

// Four lines: the type, the need, the steps taken, and the result.
pub(crate) fn report_text<'a>(run: &'a Run, value: &'a Value) -> Text {
    let program = run.program();
    let node = program.run_term();
    let need = run.need();
    let mut report = Report {
        program,
        value,
        text: Text::new(),
    };
    report.text.push_all(b"type ");
    report.push_type(node, program.typed(node).leaves);
    report.text.push_all(b"\nneed ");
    report.text.push_decimal(u64::from(need.steps));
    report.text.push(b' ');
    report.text.push_decimal(u64::from(need.peak));
    report.text.push_all(b"\ntaken ");
    report.text.push_decimal(u64::from(run.taken()));
    report.text.push_all(b"\nresult ");
    report.push_value(0);
    report.text.push(b'\n');
    let Report { text, .. } = report;
    text
}
