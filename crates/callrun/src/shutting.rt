//! The trailers of a call.

ghost use Rattle.std.specs.Prelude.{◌≡◌, true, false};
ghost use Rattle.account.specs.declared.call.OutItem.TheVariants as out_item;
ghost use Rattle.callrun.specs.Runs.{EndsWith};
ghost use Rattle.callrun.specs.Sides.{given_over, is_gone, is_left, is_open, lane_of};

use crate::response::Response;
use account::OutItem;
use callbox::{GivenShut, Giver};
use lane::Lane;
use lists::{Field, Sequence};
use std::mem;

/// Gives the trailers, which have this status.
pub(crate) fn shut<O: Lane<Item = OutItem>>(
    response: &mut Response<Giver<O>, GivenShut<O>>,
    fields: Sequence<Field>,
    code: u32,
)
    ensures name { lane_of response.new ≡ lane_of response.old }
    ensures there { is_gone response.new ≡ is_gone response.old }
    ensures ends { is_open response.old ≡ true → EndsWith
        (given_over response.old) (out_item.Trailers fields) code
        (given_over response.new) }
    ensures over { is_open response.new ≡ false }
    ensures left { is_left response.new ≡ is_left response.old }
{
    *response = match mem::replace(response, Response::Gone) {
        Response::Open(giver) => Response::Shut(giver.trailers(fields), code),
        other => other,
    };
}
