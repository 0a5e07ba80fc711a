//! Counts and the summary of a room.

ghost use Rattle.std.specs.Prelude.{◌≡◌, map, IfOk};
ghost use Rattle.std.specs.Option.{option_copied};
ghost use Rattle.mx_json.specs.declared.value.Json.TheVariants as json;
ghost use Rattle.mx_sync_json.specs.Objects as form;

use crate::members::put;
use mx_ids::{Copied, Memory, Seq, Text};
use mx_json::{Json, Members};
use mx_lazy::Summary;
use mx_unread::Counts;
use std::alloc::Global;

/// The largest whole number in JSON (Appendices, Canonical JSON).
const LARGEST: u64 = 9_007_199_254_740_991;

pub(crate) fn number(n: u64) -> Json
    ensures { result ≡ form.number n }
{
    Json::Int(n.min(LARGEST) as i64)
}

pub(crate) fn counts_form(alloc: Global, counts: &Counts) -> Result<Json, Memory>
    ensures { IfOk result (λ j. j ≡ form.counts_form counts.now) }
{
    let mut members = Members::new(alloc);
    put(
        alloc,
        &mut members,
        "highlight_count",
        number(counts.highlights),
    )?;
    put(
        alloc,
        &mut members,
        "notification_count",
        number(counts.notifications),
    )?;
    Ok(Json::Object(members))
}

/// A summary, which is empty where it isn't sent.
pub(crate) fn summary_form(alloc: Global, summary: Option<&Summary>) -> Result<Json, Memory>
    ensures { IfOk result (λ j. j ≡ form.summary_form (option_copied summary.entry)) }
{
    match summary {
        Some(summary) => whole_summary(alloc, summary),
        None => Ok(Json::Object(Members::new(alloc))),
    }
}

fn whole_summary(alloc: Global, summary: &Summary) -> Result<Json, Memory>
    ensures { IfOk result (λ j. j ≡ form.whole_summary summary.now) }
{
    let heroes = texts(alloc, &summary.heroes)?;
    let mut members = Members::new(alloc);
    put(alloc, &mut members, "m.heroes", Json::List(heroes))?;
    put(
        alloc,
        &mut members,
        "m.invited_member_count",
        number(summary.invited),
    )?;
    put(
        alloc,
        &mut members,
        "m.joined_member_count",
        number(summary.joined),
    )?;
    Ok(Json::Object(members))
}

fn texts(alloc: Global, texts: &Seq<Text>) -> Result<Seq<Json>, Memory>
    ensures { IfOk result (λ made. made ≡ map json.Text texts.now) }
{
    let mut made = Vec::with_capacity(alloc, texts.len())?;
    'texts: for text in texts.as_slice() {
        made.push(Json::Text(text.copy(alloc)?))?;
    }
    Ok(Seq::from_vec(made))
}
