ghost use Rattle.std.specs.Prelude.{◌≡◌, [], ◌∷◌, ◌++◌, IfOk, OnOk};
ghost use Rattle.mx_json.specs.declared.value.Json as json;

use crate::members::{Member, Members};
use crate::value::Json;
use mx_ids::{Copied, Memory, Seq, Text};
use std::alloc::Global;

impl<V: Copied> Copied for Member<V> {
    fn copy(&self, alloc: Global) -> Result<Member<V>, Memory> {
        Ok(Member {
            key: self.key.copy(alloc)?,
            value: self.value.copy(alloc)?,
        })
    }
}

impl<V: Copied> Copied for Members<V> {
    fn copy(&self, alloc: Global) -> Result<Members<V>, Memory> {
        let entries = self.entries.copy(alloc)?;
        Ok(Members { entries })
    }
}

impl Copied for Json {
    fn copy(&self, alloc: Global) -> Result<Json, Memory> {
        copy_json(alloc, self)
    }
}

#[cycle(copy)]
fn copy_json(alloc: Global, json: &Json) -> Result<Json, Memory>
    ensures { IfOk result (λ c. c ≡ json.now) }
{
    match json {
        Json::Null => Ok(Json::Null),
        Json::Bool(b) => Ok(Json::Bool(*b)),
        Json::Int(n) => Ok(Json::Int(*n)),
        Json::Text(text) => Ok(Json::Text(text.copy(alloc)?)),
        Json::List(items) => copy_list(alloc, items),
        Json::Object(members) => copy_members(alloc, members),
    }
}

#[cycle(copy)]
fn copy_list(alloc: Global, list: &Seq<Json>) -> Result<Json, Memory>
    ensures { IfOk result (λ c. c ≡ json.List list.now) }
{
    let mut copies = Vec::with_capacity(alloc, list.len())?;
    for item in list.as_slice() {
        push_made(&mut copies, copy_json(alloc, item))?;
    }
    Ok(Json::List(Seq::from_vec(copies)))
}

#[cycle(copy)]
fn copy_members(alloc: Global, members: &Members<Json>) -> Result<Json, Memory>
    ensures { IfOk result (λ c. c ≡ json.Object members.now) }
{
    let mut copies = Vec::with_capacity(alloc, members.len())?;
    for member in members.as_slice() {
        push_member(
            alloc,
            &mut copies,
            &member.key,
            copy_json(alloc, &member.value),
        )?;
    }
    Ok(Json::Object(Members::from_vec(copies)))
}

/// Puts a value at the end of a list, where it was made.
pub(crate) fn push_made(list: &mut Vec<Json>, made: Result<Json, Memory>) -> Result<(), Memory>
    ensures { (value : json.Json) → IfOk made (λ v. v ≡ value) → OnOk result (list.new.items ≡ list.old.items ++ value ∷ []) }
{
    list.push(made?)?;
    Ok(())
}

/// Puts a member at the end of a list, with a copy of a key, where its value was made.
fn push_member(
    alloc: Global,
    list: &mut Vec<Member<Json>>,
    key: &Text,
    made: Result<Json, Memory>,
) -> Result<(), Memory>
    ensures { (value : json.Json) → IfOk made (λ v. v ≡ value) → OnOk result (list.new.items ≡ list.old.items ++ record { key = key.now; value = value } ∷ []) }
{
    let value = made?;
    let key = key.copy(alloc)?;
    list.push(Member { key, value })?;
    Ok(())
}
