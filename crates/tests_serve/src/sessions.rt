//! Sessions of one connection as tables. A call is a line `METHOD PATH TOKEN BODY`, and the line below it is its answer, `STATUS
//! BODY`. A path stands under `/_matrix/client/v3`, unless it begins with `/_matrix`; the token `-` is none. In the body of an answer
//! `<USER>` stands for the user's default push rules.
use crate::default_rules::default_rules;
use crate::make::{Case, answer, expect, usual_case};
use mx_ids::Memory;
use std::alloc::Global;
use std::process::Abort;
use std::rt;
use std::sync::Wait;
use std::thread::Threads;

/// The requests of a connection, and their answers.
#[derive(Drop)]
pub struct Session {
    pub requests: String,
    pub answers: String,
}

/// The session of a table.
pub fn read_table(alloc: Global, table: &str) -> Result<Session, Memory> {
    let mut session = Session {
        requests: String::new(alloc),
        answers: String::new(alloc),
    };
    'lines: for line in table.split('\n') {
        match line.as_bytes() {
            [] => {}
            [b'0'..=b'9', ..] => add_answer(alloc, &mut session.answers, line)?,
            _ => add_call(alloc, &mut session.requests, line)?,
        }
    }
    Ok(session)
}

/// The first word of a line, and what stands behind it.
fn cut(line: &str) -> (&str, &str) {
    match line.split_once(' ') {
        Some(parts) => parts,
        None => (line, ""),
    }
}

fn add_call(alloc: Global, requests: &mut String, line: &str) -> Result<(), Memory> {
    let (method, rest) = cut(line);
    let (path, rest) = cut(rest);
    let (token, body) = cut(rest);
    requests.push_str(head_of(alloc, method, path, body.len())?.as_str())?;
    if token != "-" {
        requests.push_str(token_field(alloc, token)?.as_str())?;
    }
    requests.push_str("\r\n")?;
    requests.push_str(body)?;
    Ok(())
}

/// What stands before a path.
fn base_of(path: &str) -> &'static str {
    if path.starts_with("/_matrix") {
        ""
    } else {
        "/_matrix/client/v3"
    }
}

fn head_of(alloc: Global, method: &str, path: &str, size: usize) -> Result<String, Memory> {
    let base = base_of(path);
    Ok(format!(in alloc; "{method} {base}{path} HTTP/1.1\r\nContent-Length: {size}\r\n")?)
}

fn token_field(alloc: Global, token: &str) -> Result<String, Memory> {
    Ok(format!(in alloc; "Authorization: Bearer {token}\r\n")?)
}

fn add_answer(alloc: Global, answers: &mut String, line: &str) -> Result<(), Memory> {
    let (status, body) = cut(line);
    let body = filled(alloc, body)?;
    let told = answer(alloc, phrase(status), "", body.as_str())?;
    answers.push_str(told.as_str())?;
    Ok(())
}

/// The body with a user's default push rules in the place of its mark, if it has one.
fn filled(alloc: Global, body: &str) -> Result<String, Memory> {
    match body.split_once('<') {
        Some((before, rest)) => with_rules(alloc, before, rest),
        None => Ok(String::from_str(alloc, body)?),
    }
}

/// What stands before a mark, the rules, and what stands behind it.
fn with_rules(alloc: Global, before: &str, rest: &str) -> Result<String, Memory> {
    let (user, behind) = match rest.split_once('>') {
        Some(parts) => parts,
        None => (rest, ""),
    };
    let rules = default_rules(alloc, user)?;
    Ok(format!(in alloc; "{before}{rules}{behind}")?)
}

/// A status with its phrase (RFC 9110, section 15).
fn phrase(status: &str) -> &'static str {
    match status {
        "200" => "200 OK",
        "400" => "400 Bad Request",
        "401" => "401 Unauthorized",
        "403" => "403 Forbidden",
        "404" => "404 Not Found",
        "405" => "405 Method Not Allowed",
        "413" => "413 Payload Too Large",
        _ => "500 Internal Server Error",
    }
}

/// A run is asked the calls of a table, in pieces of so many bytes, and writes its answers.
pub fn holds_by<R: Abort + Wait + rt::Clock + Threads + Copy + Drop + Send + 'static>(
    rt: &R,
    alloc: Global,
    table: &str,
    piece: usize,
) -> Result<(), Memory> {
    let session = read_table(alloc, table)?;
    let case = Case {
        piece,
        ..usual_case(session.requests.as_str())
    };
    expect(rt, alloc, &case, 0, session.answers.as_str(), "")
}

/// A run is asked the calls of a table, and writes its answers.
pub fn holds<R: Abort + Wait + rt::Clock + Threads + Copy + Drop + Send + 'static>(
    rt: &R,
    alloc: Global,
    table: &str,
) -> Result<(), Memory> {
    holds_by(rt, alloc, table, 1000)
}
