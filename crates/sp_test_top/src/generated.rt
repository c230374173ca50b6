// Theories that are made of a number: of each part two lemmas are verified and one is falsified, by fourteen moves.

use crate::calls::assert_line;
use std::test::Fail;

#[test]
fn verdicts_of_made_theories_are_counted(rt: HostRuntime) -> Result<(), Fail> {
    let alloc = rt.alloc();
    assert_line(
        &rt,
        alloc,
        "spthy gen 2",
        "",
        1,
        "lemmas: 6\nverified: 4\nfalsified: 2\nincomplete: 0\nsteps: 28\n",
    )?;
    // one move for each lemma
    assert_line(
        &rt,
        alloc,
        "spthy gen 3 --budget 1",
        "",
        2,
        "lemmas: 9\nverified: 0\nfalsified: 0\nincomplete: 9\nsteps: 9\n",
    )?;
    assert_line(
        &rt,
        alloc,
        "spthy gen --budget 3 1",
        "",
        2,
        "lemmas: 3\nverified: 0\nfalsified: 0\nincomplete: 3\nsteps: 9\n",
    )?;
    Ok(())
}

#[test]
fn numbers_of_parts_are_from_1_to_500(rt: HostRuntime) -> Result<(), Fail> {
    let alloc = rt.alloc();
    for line in [
        "spthy gen 0",
        "spthy gen 501",
        "spthy gen 01",
        "spthy gen +1",
    ] {
        assert_line(&rt, alloc, line, "", 5, "refused: usage\n")?;
    }
    Ok(())
}
