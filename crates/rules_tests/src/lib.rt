#![tactic(auto)]

// Tests of the checker: a room that is too small.
#[cfg(test)]
mod tests {
    use grammar::parse::parse;
    use grammar::tree::Tree;
    use rules::checker::{Checker, check};
    use rules::fault::RuleFault;
    use std::alloc::Global;
    use std::test::Fail;
    use words::lexer::words;

    // How many nodes the program of the listing has, or the fault that the rules find, by a checker that was made with no room.
    fn checked(heap: Global, text: &[u8]) -> Result<Result<usize, RuleFault>, Fail> {
        let mut found = Vec::with_capacity(heap, text.len())?;
        words(text, &mut found).map_err(|_| Fail::new("a bad word"))?;
        let mut tree = Tree::room(heap, text.len())?;
        parse(found.as_slice(), text.len(), &mut tree).map_err(|_| Fail::new("no listing"))?;
        let program = check(text, tree, Checker::room(heap, 0)?);
        Ok(program.map(|program| program.size()))
    }

    // A good listing has its program: a node for the type qbit and for each of the 6 names, types and terms.
    #[test]
    fn a_good_listing_without_room(rt: HostRuntime) -> Result<(), Fail> {
        let size = checked(rt.alloc(), b"op f(a: bit): bit { a } run f(one)")?;
        assert!(rt; matches!(size, Ok(7)));
        Ok(())
    }

    // The questions are asked, want of room or not.
    #[test]
    fn an_unknown_name_without_room(rt: HostRuntime) -> Result<(), Fail> {
        let fault = checked(rt.alloc(), b"run a")?;
        assert!(rt; matches!(fault, Err(RuleFault::Unknown { place: 4 })));
        Ok(())
    }
}
