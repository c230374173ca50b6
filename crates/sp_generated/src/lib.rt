// The theory that is made of a number, so that it can be measured how the search grows with the text.
// Nothing stands below but the kit; above stands the top call, which proves the theory and counts its verdicts.
// Carried here: the promise that the text is the definition's, part by part (specs/Theory.antt).
#![tactic(auto)]

ghost use Rattle.std.specs.Prelude.{◌≡◌, ◌++◌, IfOk, OnOk, decimal};
ghost use Rattle.sp_generated.specs.Theory as spec;

use std::alloc::{AllocError, Global};

/// The two rules and the three lemmas of a part, with `C` in the place of its number.
const PART: &[u8] = b"rule Init_C: [ Fr(~x) ] --[ S_C(~x) ]-> [ T_C(~x) ]
rule Resp_C: [ T_C(x), In(y) ] --[ D_C(x) ]-> [ Out(h(<x, y>)) ]
lemma once_C: \"All x #i #j. D_C(x)@i & D_C(x)@j ==> #i = #j\"
lemma can_C: exists-trace \"Ex x #i. D_C(x)@i\"
lemma never_C: \"All x #i. D_C(x)@i ==> F\"
";

/// Two rules and three lemmas.
#[tactic(auto, unfolding(crate::specs::Theory::part))]
fn part() -> &'static [u8]
    ensures { result.now ≡ spec.part }
{
    PART
}

/// Puts the byte at the end, and the number in the place of a `C`.
fn push_byte(text: &mut Vec<u8>, number: &str, byte: u8) -> Result<(), AllocError>
    ensures { OnOk result (text.new.items ≡ text.old.items ++ spec.instead number.now byte) }
{
    if byte == b'C' {
        text.extend_from_slice(number.as_bytes())
    } else {
        text.push(byte)?;
        Ok(())
    }
}

/// Puts a part at the end, with the number in its place.
fn push_bytes(text: &mut Vec<u8>, number: &str, part: &[u8]) -> Result<(), AllocError>
    ensures { OnOk result (text.new.items ≡ text.old.items ++ spec.with_number number.now part.now) }
{
    for byte in part {
        push_byte(text, number, *byte)?;
    }
    Ok(())
}

/// Puts the part of this number at the end.
fn push_part(alloc: Global, text: &mut Vec<u8>, c: u16) -> Result<(), AllocError>
    ensures { OnOk result (text.new.items ≡ text.old.items ++ spec.with_number (decimal c) spec.part) }
{
    let number = format!(in alloc; "{c}")?;
    push_bytes(text, number.as_str(), part())
}

/// Puts the parts from 1 to this number at the end.
#[tactic(auto, using(crate::proofs::Parts::next_part))]
fn push_parts(alloc: Global, text: &mut Vec<u8>, n: u16) -> Result<(), AllocError>
    ensures { OnOk result (text.new.items ≡ text.old.items ++ spec.parts n) }
{
    let mut made = 0;
    while made < n {
        made += 1;
        push_part(alloc, text, made)?;
    }
    Ok(())
}

/// The theory that is made of so many parts.
///
/// # Errors
///
/// `AllocError` where memory is wanting.
#[tactic(auto, unfolding(crate::specs::Theory::generated))]
pub fn generated(alloc: Global, n: u16) -> Result<Vec<u8>, AllocError>
    ensures { IfOk result (λ text. text.items ≡ spec.generated n) }
{
    let mut text = Vec::from_slice(alloc, b"theory Gen begin\nbuiltins: hashing\n")?;
    push_parts(alloc, &mut text, n)?;
    text.extend_from_slice(b"end\n")?;
    Ok(text)
}
