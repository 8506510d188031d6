// One search for every kind of entry that has a name.
ghost use Rattle.std.specs.Prelude.{◌≡◌, ℕ, map};
ghost use Rattle.rules.specs.Names.{part, seek};
ghost use Rattle.rules.specs.Nodes.{named};

use grammar::tree::{Construct, Name, Node, Operation, Parameter};

// An entry whose name stands in the listing at a place and takes so many bytes.
pub trait Named {
    ghost starts: { Self → ℕ };

    ghost spans: { Self → ℕ };

    fn place(&self) -> usize
        ensures { result ≡ starts self.now };

    fn span(&self) -> usize
        ensures { result ≡ spans self.now };
}

// Place and length each, as the search asks for them. The impls differ in the path to the name alone, and no macro of this repository may write an `impl`.
impl Named for Operation {
    ghost starts = { λ o. o.name.place };

    ghost spans = { λ o. o.name.span };

    fn place(&self) -> usize {
        self.name.place
    }

    fn span(&self) -> usize {
        self.name.span
    }
}

impl Named for Parameter {
    ghost starts = { λ o. o.name.place };

    ghost spans = { λ o. o.name.span };

    fn place(&self) -> usize {
        self.name.place
    }

    fn span(&self) -> usize {
        self.name.span
    }
}

impl Named for Name {
    ghost starts = { λ n. n.place };

    ghost spans = { λ n. n.span };

    fn place(&self) -> usize {
        self.place
    }

    fn span(&self) -> usize {
        self.span
    }
}

// The name of a node that is one, or the empty name: the search asks each node for one.
pub fn name_of(node: Node) -> Name
    ensures { result ≡ named node.construct }
{
    match node.construct {
        Construct::Named(name) => name,
        _ => Name { place: 0, span: 0 },
    }
}

impl Named for Node {
    ghost starts = { λ n. (named n.construct).place };

    ghost spans = { λ n. (named n.construct).span };

    fn place(&self) -> usize {
        name_of(*self).place
    }

    fn span(&self) -> usize {
        name_of(*self).span
    }
}

// The bytes of an entry's name, cut off at the listing's end.
fn text<'a, E: Named>(src: &'a [u8], entry: &E) -> &'a [u8]
    ensures { result.now ≡ part src.now (E.starts entry.now) (E.spans entry.now) }
{
    let rest = &src[entry.place().min(src.len())..];
    &rest[..entry.span().min(rest.len())]
}

// The bytes of a name.
pub fn text_of(src: &[u8], name: Name) -> &[u8]
    ensures { result.now ≡ part src.now name.place name.span }
{
    text(src, &name)
}

// The first entry whose name has these bytes.
pub fn find<E: Named>(entries: &[E], src: &[u8], name: &[u8]) -> Option<usize>
    ensures { result ≡ seek 0 name.now (map (λ e. part src.now (E.starts e) (E.spans e)) entries.now) }
{
    entries.iter().position(|entry| text(src, entry) == name)
}
