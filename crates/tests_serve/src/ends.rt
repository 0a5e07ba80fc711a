//! How connections end: by a request that asks for it, by the last answer, inside a body, by what is no request; and a users file that is
//! too long.
use crate::make::{Case, answer, expect, expect_by, usual_case, words};
use crate::sessions::{Session, read_table};
use mx_ids::Memory;
use std::alloc::Global;
use std::process::Abort;
use std::rt;
use std::sync::Wait;
use std::test::Fail;
use std::thread::Threads;

const VERSIONS: &str = r#"{"unstable_features":{},"versions":["v1.11"]}"#;

#[test]
fn a_request_that_asks_to_close_is_the_last(rt: HostRuntime) -> Result<(), Fail> {
    let last = answer(rt.alloc(), "200 OK", "Connection: close\r\n", VERSIONS)?;
    let requests =
        "GET /_matrix/client/versions HTTP/1.1\r\nConnection: keep-alive, Close\r\n\r\nGET /_matrix/client/versions HTTP/1.1\r\n\r\n";
    let case = usual_case(requests);
    expect(&rt, rt.alloc(), &case, 0, last.as_str(), "")?;
    Ok(())
}

#[test]
fn a_request_by_http_1_0_is_the_last_also_where_it_is_refused(rt: HostRuntime) -> Result<(), Fail> {
    let refusal = answer(
        rt.alloc(),
        "404 Not Found",
        "Connection: close\r\n",
        r#"{"errcode":"M_UNRECOGNIZED","error":"no such path"}"#,
    )?;
    let case = usual_case("GET /nowhere HTTP/1.0\r\n\r\nno request\r\n\r\n");
    expect(&rt, rt.alloc(), &case, 0, refusal.as_str(), "")?;
    Ok(())
}

/// 999 requests and more, and the 1,000 answers to them.
fn thousand(alloc: Global, more: &str) -> Result<Session, Memory> {
    let mut requests = "GET /_matrix/client/versions HTTP/1.1\r\n\r\n".repeat(alloc, 999)?;
    requests.push_str(more)?;
    let one = answer(alloc, "200 OK", "", VERSIONS)?;
    let mut answers = one.as_str().repeat(alloc, 999)?;
    let last = answer(alloc, "200 OK", "Connection: close\r\n", VERSIONS)?;
    answers.push_str(last.as_str())?;
    Ok(Session { requests, answers })
}

/// A connection with 999 requests and more ends after 1,000 answers, and the run with this status.
fn ends_after_thousand<R: Abort + Wait + rt::Clock + Threads + Copy + Drop + Send + 'static>(
    rt: &R,
    alloc: Global,
    more: &str,
    status: u8,
    told: &str,
) -> Result<(), Memory> {
    let session = thousand(alloc, more)?;
    let case = usual_case(session.requests.as_str());
    expect(rt, alloc, &case, status, session.answers.as_str(), told)
}

#[test]
fn a_connection_has_at_most_1000_answers(rt: HostRuntime) -> Result<(), Fail> {
    let two =
        "GET /_matrix/client/versions HTTP/1.1\r\n\r\nGET /_matrix/client/versions HTTP/1.1\r\n\r\n";
    ends_after_thousand(&rt, rt.alloc(), two, 1, "mxsync: request stream\n")?;
    Ok(())
}

#[test]
fn the_1000th_request_may_ask_to_close(rt: HostRuntime) -> Result<(), Fail> {
    let closing = "GET /_matrix/client/versions HTTP/1.1\r\nConnection: close\r\n\r\n";
    ends_after_thousand(&rt, rt.alloc(), closing, 0, "")?;
    Ok(())
}

/// A run with `--requests` and this number, over three requests, ends with this status after these answers.
fn ends_after<R: Abort + Wait + rt::Clock + Threads + Copy + Drop + Send + 'static>(
    rt: &R,
    alloc: Global,
    number: &str,
    status: u8,
    answers: &str,
    told: &str,
) -> Result<(), Memory> {
    let mut words = words(alloc, "users", "pipe")?;
    words.push(String::from_str(alloc, "--requests")?)?;
    words.push(String::from_str(alloc, number)?)?;
    let requests = "GET /_matrix/client/versions HTTP/1.1\r\n\r\n".repeat(alloc, 3)?;
    let case = usual_case(requests.as_str());
    expect_by(rt, alloc, words.as_slice(), &case, status, answers, told)
}

#[test]
fn a_connection_has_at_most_as_many_answers_as_the_words_say(rt: HostRuntime) -> Result<(), Fail> {
    let alloc = rt.alloc();
    let one = answer(alloc, "200 OK", "", VERSIONS)?;
    let last = answer(alloc, "200 OK", "Connection: close\r\n", VERSIONS)?;
    let told = "mxsync: request stream\n";
    ends_after(&rt, alloc, "1", 1, last.as_str(), told)?;
    let two = format!(in alloc; "{one}{last}")?;
    ends_after(&rt, alloc, "2", 1, two.as_str(), told)?;
    let three = format!(in alloc; "{one}{one}{one}")?;
    ends_after(&rt, alloc, "4", 0, three.as_str(), "")?;
    Ok(())
}

#[test]
fn a_body_that_is_cut_gets_no_answer(rt: HostRuntime) -> Result<(), Fail> {
    let mut session = read_table(
        rt.alloc(),
        "GET /joined_rooms tok_a1\n200 {\"joined_rooms\":[]}\n",
    )?;
    session.requests.push_str(
        "POST /_matrix/client/v3/createRoom HTTP/1.1\r\nAuthorization: Bearer tok_a1\r\nContent-Length: 3\r\n\r\n{}",
    )?;
    let case = usual_case(session.requests.as_str());
    let told = "mxsync: request stream\n";
    expect(&rt, rt.alloc(), &case, 1, session.answers.as_str(), told)?;
    Ok(())
}

#[test]
fn a_length_that_is_none_is_answered_once(rt: HostRuntime) -> Result<(), Fail> {
    let alloc = rt.alloc();
    let refusal = answer(
        alloc,
        "400 Bad Request",
        "Connection: close\r\n",
        r#"{"errcode":"M_UNRECOGNIZED","error":"bad request"}"#,
    )?;
    let told = "mxsync: request stream\n";
    let letters = usual_case(
        "GET /_matrix/client/versions HTTP/1.1\r\nContent-Length: x\r\n\r\nGET /_matrix/client/versions HTTP/1.1\r\n\r\n",
    );
    expect(&rt, alloc, &letters, 1, refusal.as_str(), told)?;
    let two = usual_case(
        "GET /_matrix/client/versions HTTP/1.1\r\nContent-Length: 1\r\nContent-Length: 2\r\n\r\n{}",
    );
    expect(&rt, alloc, &two, 1, refusal.as_str(), told)?;
    Ok(())
}

/// A run with a users file of 35 bytes and so many empty lines ends with this status.
fn ends_by_lines<R: Abort + Wait + rt::Clock + Threads + Copy + Drop + Send + 'static>(
    rt: &R,
    alloc: Global,
    lines: usize,
    status: u8,
    told: &str,
) -> Result<(), Memory> {
    let mut users = String::from_str(alloc, "server example.org\nalice A1 tok_a1\n")?;
    let empty = "\n".repeat(alloc, lines)?;
    users.push_str(empty.as_str())?;
    let case = Case {
        users: users.as_str(),
        ..usual_case("")
    };
    expect(rt, alloc, &case, status, "", told)
}

#[test]
fn a_users_file_has_at_most_1048576_bytes(rt: HostRuntime) -> Result<(), Fail> {
    let alloc = rt.alloc();
    ends_by_lines(&rt, alloc, 1_048_541, 0, "")?;
    let told = "mxsync: users file, line 0: users: more than 1048576 bytes\n";
    ends_by_lines(&rt, alloc, 1_048_542, 3, told)?;
    Ok(())
}
