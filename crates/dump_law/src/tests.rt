use crate::plain_names;
use std::alloc::{AllocError, Global};
use std::test::Fail;
use sym_link::{Code, Item, ItemKind, Items, NONE, Numbers, Program, ScopeRow, Scopes, Starts};
use vvp_forms::ScopeKind;
use vvp_lex::Bytes;

fn one_scope(alloc: Global, name: &[u8]) -> Result<Scopes, AllocError> {
    let mut scopes = Scopes::new(alloc);
    scopes.push(ScopeRow {
        name: Bytes::from_slice(alloc, name)?,
        kind: ScopeKind::Module,
        parent: NONE,
        scale: 1,
    })?;
    Ok(scopes)
}

fn one_variable(alloc: Global, name: &[u8]) -> Result<Items, AllocError> {
    let mut items = Items::new(alloc);
    items.push(Item {
        name: Bytes::from_slice(alloc, name)?,
        starred: true,
        scope: 0,
        msb: 0,
        lsb: 0,
        signed: false,
        width: 1,
        what: ItemKind::Var { integer: false },
    })?;
    Ok(items)
}

fn are_plain(alloc: Global, scope: &[u8], variable: &[u8]) -> Result<bool, AllocError> {
    let scopes = one_scope(alloc, scope)?;
    let items = one_variable(alloc, variable)?;
    let program = Program {
        items,
        code: Code::new(alloc),
        code_scopes: Numbers::new(alloc),
        scopes,
        threads: Starts::new(alloc),
        precision: 0,
    };
    Ok(plain_names(&program))
}

#[test]
fn names(rt: HostRuntime) -> Result<(), Fail> {
    let rows: [(&[u8], &[u8], bool); 4] = [
        (b"tb", b"a", true),
        (b"$end", b"a", false),
        (b"tb", b"a b", false),
        (b"tb", b"", false),
    ];
    for (scope, variable, plain) in rows {
        assert_eq!(rt;
            are_plain(rt.alloc(), scope, variable)?,
            plain,
            "at {variable:?}"
        );
    }
    Ok(())
}
