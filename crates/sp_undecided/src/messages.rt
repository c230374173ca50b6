// The first message variable of which it is open what stands for it.

ghost use Rattle.std.specs.Prelude.{◌≡◌, option_map};
ghost use Rattle.sp_spec_system.specs.Move as spec;
ghost use Rattle.sp_system.specs.SystemView.{system_of};
ghost use Rattle.sp_moves.specs.View.{move_of};
ghost use Rattle.sp_spec_proof.specs.Choice.{first_instance};
ghost use Rattle.sp_spec_proof.specs.Deciding.{tops};

use sp_moves::moves::Move;
use sp_moves_decide::top::has_variable;
use sp_system::system::System;
use sp_term::term::Sort;

/// The move on the message variable of the lowest number that stands in the system, if one does.
pub fn first_top(system: &System) -> Option<Move>
    ensures { (context : spec.Context) → option_map move_of result ≡ first_instance context (system_of system.now) (tops context (system_of system.now)) }
{
    for number in 0..system.next {
        if has_variable(system, Sort::Msg, number) {
            return Some(Move::Top(number));
        }
    }
    None
}
