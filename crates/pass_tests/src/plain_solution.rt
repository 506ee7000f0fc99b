//! Constraints that one worker solves, and what a race allows.

use flow_form::{Constraints, Event, Give, Rule, Rules, Test, no_pairs};
use flow_plain::{IllegalEvent, Race, chain, solve_plain};
use std::alloc::Global;
use std::test::Fail;

/// A rule without a test.
fn always(give: Give, to: u32) -> Rule {
    Rule {
        first: None,
        second: None,
        give,
        to,
    }
}

/// A rule with one test.
fn when(first: Test, give: Give, to: u32) -> Rule {
    Rule {
        first: Some(first),
        second: None,
        give,
        to,
    }
}

/// The rules that a program of one definition of an integer has: its variable is row 0, the reach of
/// the program row 1, the constant row 2 and the definition's own value row 3. Atom 0 is reached,
/// 1 an integer, 6 the unspecified value.
fn one_definition() -> [Rule; 4] {
    let reached = Test::Has { row: 1, atom: 0 };
    [
        always(Give::Atom(0), 1),
        when(reached, Give::Atom(1), 2),
        when(reached, Give::Row(2), 0),
        when(reached, Give::Atom(6), 3),
    ]
}

fn system(alloc: Global, rows: u32, atoms: u32, rules: &[Rule]) -> Result<Constraints, Fail> {
    let rules = Rules::from_slice(alloc, rules)?;
    Ok(Constraints::new(rows, atoms, rules).ok_or("the constraints are valid")?)
}

#[test]
fn least_solutions(rt: HostRuntime) -> Result<(), Fail> {
    let other_than_3 = Test::Other { row: 0, atom: 3 };
    let has_3 = Test::Has { row: 0, atom: 3 };
    let never = Rule {
        first: Some(Test::Has { row: 0, atom: 0 }),
        second: Some(Test::Has { row: 1, atom: 1 }),
        give: Give::Atom(1),
        to: 0,
    };
    let both = Rule {
        second: Some(Test::Other { row: 0, atom: 1 }),
        ..never
    };
    let one_definition = one_definition();
    let wide = [always(Give::Row(0), 1), always(Give::Atom(69), 0)];
    let only_3 = [
        always(Give::Atom(3), 0),
        when(other_than_3, Give::Atom(0), 1),
        when(has_3, Give::Atom(0), 2),
    ];
    let more_than_3 = [
        when(other_than_3, Give::Atom(0), 1),
        when(Test::Has { row: 2, atom: 0 }, Give::Atom(1), 0),
        when(has_3, Give::Atom(0), 2),
        always(Give::Atom(3), 0),
    ];
    let second_fails = [always(Give::Atom(0), 0), never];
    let second_holds = [always(Give::Atom(1), 1), always(Give::Atom(0), 0), both];
    // rows, atoms, rules, the words of the least solution, the steps that add a pair
    let cases: [(u32, u32, &[Rule], &[u64], u32); 7] = [
        (4, 10, &one_definition, &[2, 1, 2, 64], 3),
        (2, 70, &wide, &[0, 32, 0, 32], 2),
        (3, 5, &only_3, &[8, 0, 1], 2),
        (3, 5, &more_than_3, &[10, 1, 1], 4),
        (2, 2, &second_fails, &[1, 0], 1),
        (2, 2, &second_holds, &[3, 2], 2),
        (2, 2, &[], &[0, 0], 0),
    ];
    for (rows, atoms, rules, words, steps) in cases {
        let c = system(rt.alloc(), rows, atoms, rules)?;
        let solution = solve_plain(rt.alloc(), &c)?;
        assert_eq!(rt;
            solution.words.as_slice(),
            words,
            "{rows} rows, {atoms} atoms"
        );
        assert_eq!(rt; chain(rt.alloc(), &c)?, steps, "{rows} rows, {atoms} atoms");
    }
    Ok(())
}

#[test]
fn events(rt: HostRuntime) -> Result<(), Fail> {
    let c = system(rt.alloc(), 4, 10, &one_definition())?;
    let base = no_pairs(rt.alloc(), &c)?;
    let mut race = Race::start(rt.alloc(), &c, &base, 2)?;
    let grow_2 = Event::Or {
        worker: 0,
        word: 2,
        mask: 2,
    };
    // an event, and whether the race allows it after those before it
    let cases = [
        (grow_2, false),
        (
            Event::Or {
                worker: 0,
                word: 1,
                mask: 1,
            },
            true,
        ),
        (
            Event::Done {
                worker: 0,
                block: 0,
            },
            true,
        ),
        (grow_2, false),
        (Event::Load { worker: 0, word: 1 }, true),
        (grow_2, true),
        (
            Event::Done {
                worker: 1,
                block: 0,
            },
            false,
        ),
        (Event::Load { worker: 1, word: 1 }, true),
        (
            Event::Done {
                worker: 1,
                block: 0,
            },
            true,
        ),
        (
            Event::Done {
                worker: 1,
                block: 1,
            },
            false,
        ),
        (Event::Load { worker: 1, word: 4 }, false),
        (Event::Claim { worker: 1 }, true),
        (Event::Claim { worker: 2 }, false),
    ];
    for (at, (event, legal)) in cases.into_iter().enumerate() {
        let answer = race.step(event);
        let want = if legal {
            Ok(())
        } else {
            Err(IllegalEvent { event })
        };
        assert_eq!(rt; answer, want, "event {at}");
    }
    Ok(())
}
