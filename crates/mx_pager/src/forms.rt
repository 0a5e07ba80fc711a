//! The reply to a page.

ghost use Rattle.std.specs.Prelude.{◌≡◌, ◌++◌, ◌∷◌, [], true, List, ℕ, option_map, IfOk, OnOk};
ghost use Rattle.std.specs.Ordering.{nat_cmp, is_lt};
ghost use Rattle.std.specs.Cmp.Lexicographic.{slice_cmp};
ghost use Rattle.mx_ids.specs.Page.{page_text};
ghost use Rattle.mx_ids.specs.declared.page_token.PageToken.{PageToken};
ghost use Rattle.mx_json.specs.Keys.{are_ordered, keys_of};
ghost use Rattle.mx_json.specs.declared.value.Json.TheVariants as json;
ghost use Rattle.mx_event.specs.Forms.{member, member_if};
ghost use Rattle.mx_pager.specs.Forms as form;

use crate::asked::Bound;
use crate::sent::Page;
use mx_event::{Shown, client_form};
use mx_ids::{Memory, PageToken, Seq, Text, write_page_token, write_sync_token};
use mx_json::{Json, Members};
use std::alloc::Global;

/// A page as a device sees it (Client-Server API, Getting events for a room); `server` is the server's name.
pub fn page_form(alloc: Global, server: &str, device: u32, page: &Page) -> Result<Json, Memory>
    ensures { IfOk result (λ j. j ≡ form.page_form server.now device page.now) }
{
    let mut members = Members::new(alloc);
    put_page(alloc, &mut members, server, device, page)?;
    Ok(Json::Object(members))
}

/// Puts the members of a page into an object that has none.
fn put_page(
    alloc: Global,
    members: &mut Members<Json>,
    server: &str,
    device: u32,
    page: &Page,
) -> Result<(), Memory>
    requires { members.old ≡ [] }
    ensures { OnOk result (json.Object members.new ≡ form.page_form server.now device page.now) }
{
    let chunk = events_form(alloc, server, device, &page.chunk)?;
    put(alloc, members, "chunk", chunk)?;
    let end = end_form(alloc, &page.end)?;
    put_if(alloc, members, "end", end)?;
    let start = bound_form(alloc, &page.start)?;
    put(alloc, members, "start", start)?;
    let state = members_form(alloc, server, device, &page.members)?;
    put_if(alloc, members, "state", state)?;
    Ok(())
}

fn end_form(alloc: Global, end: &Option<PageToken>) -> Result<Option<Json>, Memory>
    ensures { IfOk result (λ j. j ≡ option_map (λ (t : PageToken). json.Text (page_text t)) end.now) }
{
    match end {
        Some(token) => Ok(Some(Json::Text(page_text(alloc, token)?))),
        None => Ok(None),
    }
}

fn bound_form(alloc: Global, bound: &Bound) -> Result<Json, Memory>
    ensures { IfOk result (λ j. j ≡ json.Text (form.bound_text bound.now)) }
{
    match bound {
        Bound::Page(token) => Ok(Json::Text(page_text(alloc, token)?)),
        Bound::Sync(token) => {
            let mut text = Text::new(alloc);
            write_sync_token(alloc, token, &mut text)?;
            Ok(Json::Text(text))
        }
    }
}

fn page_text(alloc: Global, token: &PageToken) -> Result<Text, Memory>
    ensures { IfOk result (λ t. t ≡ page_text token.now) }
{
    let mut text = Text::new(alloc);
    write_page_token(alloc, token, &mut text)?;
    Ok(text)
}

fn members_form(
    alloc: Global,
    server: &str,
    device: u32,
    members: &Option<Seq<Shown>>,
) -> Result<Option<Json>, Memory>
    ensures { IfOk result (λ j. j ≡ option_map (form.events_form server.now device) members.now) }
{
    match members {
        Some(events) => Ok(Some(events_form(alloc, server, device, events)?)),
        None => Ok(None),
    }
}

fn events_form(
    alloc: Global,
    server: &str,
    device: u32,
    events: &Seq<Shown>,
) -> Result<Json, Memory>
    ensures { IfOk result (λ j. j ≡ form.events_form server.now device events.now) }
{
    let mut forms = Vec::with_capacity(alloc, events.len())?;
    'events: for shown in events.as_slice() {
        forms.push(client_form(alloc, shown, device, true, server)?)?;
    }
    Ok(Json::List(Seq::from_vec(forms)))
}

/// Puts a member at the end, whose key is above all keys there are, where there is a value.
fn put_if(
    alloc: Global,
    members: &mut Members<Json>,
    key: &str,
    value: Option<Json>,
) -> Result<(), Memory>
    requires { are_ordered (keys_of members.old ++ key.now ∷ []) ≡ true }
    ensures put { OnOk result (members.new ≡ members.old ++ member_if key.now value) }
    ensures next { OnOk result ((k : List ℕ) → is_lt (slice_cmp nat_cmp key.now k) ≡ true → are_ordered (keys_of members.new ++ k ∷ []) ≡ true) }
{
    match value {
        Some(value) => put(alloc, members, key, value),
        None => Ok(()),
    }
}

/// Puts a member at the end, whose key is above all keys there are.
fn put(alloc: Global, members: &mut Members<Json>, key: &str, value: Json) -> Result<(), Memory>
    requires { are_ordered (keys_of members.old ++ key.now ∷ []) ≡ true }
    ensures put { OnOk result (members.new ≡ members.old ++ member key.now value ∷ []) }
    ensures next { OnOk result ((k : List ℕ) → is_lt (slice_cmp nat_cmp key.now k) ≡ true → are_ordered (keys_of members.new ++ k ∷ []) ≡ true) }
{
    let key = Text::from_string(String::from_str(alloc, key)?);
    members.push(key, value)
}
