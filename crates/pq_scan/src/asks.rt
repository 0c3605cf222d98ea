//! What a scan asks for its inputs, all at once.
ghost use Rattle.std.specs.Prelude.{◌≡◌, map, option_copied, IfOk};
ghost use Rattle.pq_scan.specs.Asked.{range_asked};
ghost use Rattle.pq_scan.specs.Forms.{form_asked};
ghost use Rattle.pq_scan.specs.Prepared.{IsPrepared};

use crate::forms::{PlaceForm, form_of};
use crate::keys::range_of;
use crate::passing::passes;
use crate::prepared::Scan;
use pq_base::{List, NoMem, Row};
use pq_plan::Combo;
use pq_store::Ends;
use std::alloc::Global;

/// The range that is asked for an input, and the form of its positions; where the input doesn't pass, none and
/// the form without a part.
#[derive(Drop)]
struct Ask {
    range: Option<Ends>,
    form: PlaceForm,
}

/// What is asked for an input, strictly after a cursor.
fn ask_of(alloc: Global, scan: &Scan<'_>, combo: &Combo, after: Option<&Row>) -> Result<Ask, NoMem>
    requires { IsPrepared scan.now }
    ensures range { IfOk result (λ ask. ask.range ≡ range_asked scan.now (option_copied after.entry) combo.now) }
    ensures form { IfOk result (λ ask. ask.form ≡ form_asked scan.now combo.now) }
{
    if !passes(scan, combo) {
        return Ok(Ask {
            range: None,
            form: PlaceForm {
                parts: List::new(alloc),
                behind: List::new(alloc),
            },
        });
    }
    let range = range_of(alloc, scan, combo, after)?;
    let form = form_of(alloc, scan, combo)?;
    Ok(Ask {
        range: Some(range),
        form,
    })
}

/// What is asked for several inputs, place by place.
#[derive(Drop)]
pub(crate) struct Asks {
    pub ranges: List<Option<Ends>>,
    pub forms: List<PlaceForm>,
}

/// What is asked for inputs, strictly after a cursor.
pub(crate) fn asks_of(
    alloc: Global,
    scan: &Scan<'_>,
    inputs: &[Combo],
    after: Option<&Row>,
) -> Result<Asks, NoMem>
    requires { IsPrepared scan.now }
    ensures ranges { IfOk result (λ asks. asks.ranges ≡ map
        (range_asked scan.now (option_copied after.entry)) inputs.now) }
    ensures forms { IfOk result (λ asks. asks.forms ≡ map (form_asked scan.now) inputs.now) }
{
    let mut ranges = List::with_room(alloc, inputs.len())?;
    let mut forms = List::with_room(alloc, inputs.len())?;
    for combo in inputs {
        let ask = ask_of(alloc, scan, combo, after)?;
        ranges.push(alloc, ask.range)?;
        forms.push(alloc, ask.form)?;
    }
    Ok(Asks { ranges, forms })
}
