//! Flow constraints shaped like those of a program: procedures make closures and pass them on, and a
//! call flows along wherever a closure reaches it.
ghost use Rattle.std.specs.Prelude.{◌<◌, ◌≤◌, ◌+◌, ◌*◌};

use flow_form::{Constraints, Give, Rule, Rules, Test};
use std::alloc::{AllocError, Global};

/// The variables of a procedure: its parameter, its result and seven others.
const VARIABLES: u32 = 9;

const PARAMETER: u32 = 0;

const RESULT: u32 = 1;

/// The procedures that come after one and may be called by it.
const NEAR: u32 = 327;

/// The row that has atom 0 where a procedure is reached.
fn reach_row(procedure: u32) -> u32
    requires { procedure < 65536 }
{
    procedure * (VARIABLES + 1)
}

/// The row of a variable of a procedure.
fn variable(procedure: u32, number: u32) -> u32
    requires { procedure < 65536 }
{
    procedure * (VARIABLES + 1) + 1 + number % VARIABLES
}

/// The atom of a procedure's closure.
fn closure(procedure: u32) -> u32
    requires { procedure < 65536 }
{
    procedure + 1
}

fn reached(procedure: u32) -> Option<Test>
    requires { procedure < 65536 }
{
    Some(Test::Has {
        row: reach_row(procedure),
        atom: 0,
    })
}

/// The constraints of so many procedures: ten rows, about one and a half atoms and a thousand rules for
/// each, if the counts are within the limits.
pub(crate) fn constraints(alloc: Global, procedures: u32) -> Result<Option<Constraints>, AllocError>
    requires some { 0 < procedures }
    requires few { procedures ≤ 2000 }
{
    let mut rules = Rules::new(alloc);
    rules.push(Rule {
        first: None,
        second: None,
        give: Give::Atom(0),
        to: 0,
    })?;
    for procedure in 0..procedures {
        push_values(&mut rules, procedures, procedure)?;
        push_flows(&mut rules, procedure)?;
        push_calls(&mut rules, procedures, procedure)?;
    }
    let atoms = procedures + procedures / 2;
    Ok(Constraints::new(procedures * (VARIABLES + 1), atoms, rules))
}

/// The closures and constants that a procedure makes.
fn push_values(rules: &mut Rules, procedures: u32, procedure: u32) -> Result<(), AllocError>
    requires some { 0 < procedures }
    requires few { procedures ≤ 2000 }
    requires there { procedure < procedures }
{
    for at in 0..8 {
        let made = if at < 3 {
            closure((procedure + 1 + 101 * at) % procedures)
        } else {
            1 + procedures + (5 * procedure + at) % (procedures.div_ceil(4))
        };
        rules.push(Rule {
            first: reached(procedure),
            second: None,
            give: Give::Atom(made),
            to: variable(procedure, 2 + at),
        })?;
    }
    Ok(())
}

/// What flows from variable to variable of a procedure.
fn push_flows(rules: &mut Rules, procedure: u32) -> Result<(), AllocError>
    requires { procedure < 65536 }
{
    for at in 0..11 {
        rules.push(Rule {
            first: reached(procedure),
            second: None,
            give: Give::Row(variable(procedure, 4 * at)),
            to: variable(procedure, 4 * at + 2),
        })?;
    }
    Ok(())
}

/// The calls of a procedure: for each that it may call, whether it is reached, its parameter and its
/// result.
fn push_calls(rules: &mut Rules, procedures: u32, procedure: u32) -> Result<(), AllocError>
    requires some { 0 < procedures }
    requires few { procedures ≤ 2000 }
    requires there { procedure < procedures }
{
    for near in 1..=NEAR {
        let callee = (procedure + near) % procedures;
        let operator = variable(procedure, 2 + near % 3);
        let call = Rule {
            first: reached(procedure),
            second: Some(Test::Has {
                row: operator,
                atom: closure(callee),
            }),
            give: Give::Atom(0),
            to: reach_row(callee),
        };
        rules.push(call)?;
        rules.push(Rule {
            give: Give::Row(variable(procedure, 5)),
            to: variable(callee, PARAMETER),
            ..call
        })?;
        rules.push(Rule {
            give: Give::Row(variable(callee, RESULT)),
            to: variable(procedure, 6),
            ..call
        })?;
    }
    Ok(())
}
