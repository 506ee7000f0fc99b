ghost use Rattle.std.specs.Prelude.{[], ◌∷◌, IfOk, None};
ghost use Rattle.flow_form.specs.declared.rule.Give.TheVariants.{Atom};
ghost use Rattle.flow_form.specs.Shape.{IsMadeOf};
ghost use Rattle.type_table.specs.Tables.{IsOf};

use crate::{Pass, TypeTable};
use flow_form::{Constraints, Give, Rule, Rules};
use std::alloc::Global;
use std::test::Fail;

fn shared<T: Sync>(value: &T) {
    let _ = value;
}

fn sent<T: Send + Drop>(value: T) {
    let _ = value;
}

/// A table may be shared among threads, and a pass sent to one.
fn crosses_threads(table: &TypeTable, pass: Pass) {
    shared(table);
    sent(pass);
}

/// Two rows of 70 atoms, of which the one rule gives the second the atom 69.
fn system(alloc: Global) -> Result<Constraints, Fail>
    ensures { IfOk result (λ c. IsMadeOf c 2 70 (record { first = None; second = None; give = Atom 69; to = 1 } ∷ [])) }
{
    let rule = Rule {
        first: None,
        second: None,
        give: Give::Atom(69),
        to: 1,
    };
    let rules = Rules::from_slice(alloc, &[rule])?;
    Ok(Constraints::new(2, 70, rules).ok_or("the constraints are valid")?)
}

/// Grows the one atom, and is done with the one block.
fn do_block(table: &TypeTable, pass: &mut Pass) -> u64
    requires of { IsOf pass.old table.now }
    requires made { IsMadeOf table.now.constraints 2 70 (record { first = None; second = None; give = Atom 69; to = 1 } ∷ []) }
    ensures of { IsOf pass.new table.now }
{
    let found = table.grow(pass, 3, 32);
    table.finish(pass, 0);
    found
}

#[test]
fn words_of_a_round(rt: HostRuntime) -> Result<(), Fail> {
    let alloc = rt.alloc();
    let c = system(alloc)?;
    let (table, mut pass) = TypeTable::open(alloc, &c, None)?;
    let mut second = table.split(alloc, &mut pass)?;
    assert_eq!(rt; table.load(&mut second, 3), 0);
    assert_eq!(rt; do_block(&table, &mut second), 0);
    assert_eq!(rt; do_block(&table, &mut pass), 32);
    assert_eq!(rt; table.claim(&mut pass), 0);
    assert_eq!(rt; table.claim(&mut second), 1);
    table.join(&mut pass, second);
    assert!(rt; pass.has_done(0));
    let closed = table.close(pass);
    assert!(rt; closed.rounds() == 1);
    assert_eq!(rt; closed.rows().words.as_slice(), [0, 0, 0, 32].as_slice());
    let (table, mut pass) = TypeTable::open(alloc, &c, Some(&closed))?;
    assert!(rt; !pass.has_done(0));
    assert_eq!(rt; table.load(&mut pass, 3), 32);
    assert_eq!(rt; table.close(pass).rounds(), 2);
    Ok(())
}
