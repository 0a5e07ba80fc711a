//! A run of the program.
ghost use Rattle.std.specs.Prelude.{◌≡◌, ◌⊎◌, ◌≤◌, None, Some, IfErr, IfOk, MatchResult, map, string_bytes};
ghost use Rattle.mx_outside.specs.Causes.{Rose};
ghost use Rattle.mx_pool.specs.Lines.{Tells, line_of, shown};
ghost use Rattle.mx_pool.specs.Connections.{change, clocked, ends_by};
ghost use Rattle.mx_pool.specs.Runs.{HasUsers, IsCause, IsRan, IsServerEnd, IsUsage, ListenerRose, Prints, RanBy, RanMode, RanPipe, RunsListenerRose, ServesAll, ServesAt, ServesBy, ServesFile, ServesFor, ServesRun, ServesWith, TellsAt, TellsPipe, TellsRun, TellsServer, TellsWith, arrivals};
ghost use Rattle.mx_pool.specs.Serving.{HasNoneLeft, IsServerStatus};
ghost use Rattle.mx_words.specs.Words.{address_in, asked_of, said_by};

use crate::kept::run_kept;
use crate::looping::loop_on;
use crate::serving::serve;
use crate::site::{serve_users, server_for};
use crate::status::{Status, server_status};
use crate::telling::{tell, tell_about, tell_address};
use mx_log::Logs;
use mx_outside::{Clock, FileFault, Files, Listened, Listener, Ports, Put, Sink, Source, Spawner};
use mx_serve::{Ended, EnginePass};
use mx_users::{Directory, UsersFault, read_users};
use mx_words::{Asked, Mode, Words, WordsFault, read_words};
use std::alloc::Global;
use std::rt;
use std::sync::Wait;
use std::thread::Threads;

/// A users file has at most so many bytes.
const USERS_LIMIT: usize = 1_048_576;

/// A run that has ended: its status, and the connection where one was served in mode `pipe`, with what its pass has then seen.
#[derive(Drop)]
pub struct Ran {
    pub status: Status,
    pub connection: Option<(Ended, EnginePass)>,
}

/// Reads the users file that the words name, and serves on an engine with so many writers a stream, and so many requests a connection as the
/// words say. The engine has no store; where the words name a journal it has those of the journal's lines, and each store is kept there before
/// it is made. So it serves in mode `pipe` one connection over `input` and `output`; in mode `serve` the connections that
/// come to the address of the words, so many at once as the words say and silent for no longer than they say, each by a job of `spawner`. Where the words ask for the help or
/// the version that is put to `output`, with status `Done`, and nothing is served. Waits for turns at the streams, rests in syncs with a
/// `timeout`, and in mode `serve` waits for connections, for free passes, and for the jobs in the end.
///
/// Where the status isn't `Done` one line to `errors` says why: `mxsync: usage`, `mxsync: users file, line 3`, `mxsync: outside`,
/// `mxsync: listener`, `mxsync: journal: in use`, `mxsync: journal`, `mxsync: journal: line 3`, `mxsync: request stream` or `mxsync: memory`. It
/// goes on with `: ` and why the words aren't of their form, with the name of the users file or of the journal that isn't read, with what is
/// wrong with the journal's line, or with the address that isn't bound; each control character of these (U+0000 to U+001F,
/// U+007F to U+009F) is shown as a space. In mode `serve` a line before it names the address once it is bound, and says so
/// where no journal is named. A fault of `errors` is passed over.
///
/// `Usage` comes exactly where the words aren't of their form; `UsersFile` where the file breaks its form or has
/// more than 1,048,576 bytes; `Outside` only where a count of faults of `files`, `input` or `output` rose; a `Journal` that is `Busy` or
/// `Failed` only where that of `logs` did; `Listener` in mode `serve` only where that of `listener` or of `spawner` rose, in mode `loop` only where that of
/// `ports` did, and never else. In mode `serve` `Done` comes only where the listener, where it tells its pairs, has none left. Then all
/// connections that were begun were served, as `serve` promises, for the users of the file; at another status that, or none was begun.
/// `connection` is none in mode `serve` and for the help and the version, and else only for `Usage` and `UsersFile`, for a fault of
/// `files`, and for want of memory: then nothing was taken from `input`, and nothing but the help or the version was written to `output`.
#[tactic(auto, using(crate::proofs::Outcomes::ran_usage, crate::proofs::Outcomes::ran_outside))]
pub fn run<
    F: Files,
    J: Logs,
    S: Source,
    K: Sink,
    E: Sink,
    C: Clock + Drop + Send + 'static,
    L: Listener,
    Q: Ports + Drop + Send + 'static,
    R: Wait + rt::Clock + Threads + Copy + Drop + Send + 'static,
>(
    rt: &R,
    alloc: Global,
    words: &[String],
    files: &mut F,
    logs: &mut J,
    input: &mut S,
    output: &mut K,
    errors: &mut E,
    clock: &mut C,
    listener: &mut L,
    spawner: &mut Spawner,
    ports: &mut Q,
) -> Ran
where
    L::In: Drop + Send + 'static,
    L::Out: Drop + Send + 'static,
    Q::Port: Drop + Send + 'static,
    ensures ran { IsRan (asked_of (map string_bytes words.now)) (record {
      file = F.told files.old;
      journal = J.told logs.old;
      left = change (S.left input.old) (S.left input.new);
      written = change (K.written output.old) (K.written output.new);
      file_faults = change (F.faults files.old) (F.faults files.new);
      journal_faults = change (J.faults logs.old) (J.faults logs.new);
      read_faults = change (S.faults input.old) (S.faults input.new);
      write_faults = change (K.faults output.old) (K.faults output.new);
      clock = change (clocked (C.last clock.old) (C.readings clock.old)) (clocked (C.last clock.new) (C.readings clock.new));
    }) result.status result.connection }
    ensures usage { IsUsage (asked_of (map string_bytes words.now)) result.status }
    ensures outside { result.status ≡ Status.Outside → Rose (F.faults files.old) (F.faults files.new) ⊎ (Rose (S.faults input.old) (S.faults input.new) ⊎ Rose (K.faults output.old) (K.faults output.new)) }
    ensures closed { result.status ≡ Status.Done → ServesAll (asked_of (map string_bytes words.now)) (L.left listener.new) (Q.left ports.new) }
    ensures listener { result.status ≡ Status.Listener → RunsListenerRose (asked_of (map string_bytes words.now)) (change (L.faults listener.old) (L.faults listener.new)) (change spawner.old.plan.faults spawner.new.plan.faults) (change (Q.faults ports.old) (Q.faults ports.new)) }
    ensures served { ServesRun (asked_of (map string_bytes words.now)) (J.told logs.old) (F.told files.old) L.left (ends_by L.In.left L.Out.written L.In.faults L.Out.faults)
        (arrivals (change (L.left listener.old) (L.left listener.new)) (change spawner.old.plan.next spawner.new.plan.next)) result.status }
    ensures told { TellsRun (asked_of (map string_bytes words.now)) result.connection (E.written errors.old) (E.written errors.new) (E.faults errors.old) (E.faults errors.new) result.status }
{
    match read_words(alloc, words) {
        Ok(Asked::Run(words)) => run_words(
            rt, alloc, &words, files, logs, input, output, errors, clock, listener, spawner, ports,
        ),
        Ok(Asked::Help(text)) => print_text(text.as_str(), output, errors),
        Ok(Asked::Version(text)) => print_text(text.as_str(), output, errors),
        Err(WordsFault::Usage(why)) => {
            unserved(tell_about(alloc, errors, Status::Usage, why.as_str()))
        }
        Err(WordsFault::Memory(refused)) => unserved_for(Status::Memory(refused.into()), errors),
    }
}

/// A run by words of their form.
fn run_words<
    F: Files,
    J: Logs,
    S: Source,
    K: Sink,
    E: Sink,
    C: Clock + Drop + Send + 'static,
    L: Listener,
    Q: Ports + Drop + Send + 'static,
    R: Wait + rt::Clock + Threads + Copy + Drop + Send + 'static,
>(
    rt: &R,
    alloc: Global,
    words: &Words,
    files: &mut F,
    logs: &mut J,
    input: &mut S,
    output: &mut K,
    errors: &mut E,
    clock: &mut C,
    listener: &mut L,
    spawner: &mut Spawner,
    ports: &mut Q,
) -> Ran
where
    L::In: Drop + Send + 'static,
    L::Out: Drop + Send + 'static,
    Q::Port: Drop + Send + 'static,
    requires workers { (1 ≤ words.now.workers) × (words.now.workers ≤ 16) }
    requires connections { 1 ≤ words.now.connections }
    ensures ran { RanBy (said_by words.now) (record {
      file = F.told files.old;
      journal = J.told logs.old;
      left = change (S.left input.old) (S.left input.new);
      written = change (K.written output.old) (K.written output.new);
      file_faults = change (F.faults files.old) (F.faults files.new);
      journal_faults = change (J.faults logs.old) (J.faults logs.new);
      read_faults = change (S.faults input.old) (S.faults input.new);
      write_faults = change (K.faults output.old) (K.faults output.new);
      clock = change (clocked (C.last clock.old) (C.readings clock.old)) (clocked (C.last clock.new) (C.readings clock.new));
    }) result.status result.connection }
    ensures closed { result.status ≡ Status.Done → ServesAt (said_by words.now).way (L.left listener.new) (Q.left ports.new) }
    ensures listener { result.status ≡ Status.Listener → ListenerRose (said_by words.now).way (change (L.faults listener.old) (L.faults listener.new)) (change spawner.old.plan.faults spawner.new.plan.faults) (change (Q.faults ports.old) (Q.faults ports.new)) }
    ensures served { ServesWith (said_by words.now).journal (J.told logs.old) (said_by words.now) (F.told files.old) L.left (ends_by L.In.left L.Out.written L.In.faults L.Out.faults)
        (arrivals (change (L.left listener.old) (L.left listener.new)) (change spawner.old.plan.next spawner.new.plan.next)) result.status }
    ensures told { TellsWith (said_by words.now).journal (said_by words.now) result.connection (E.written errors.old) (E.written errors.new) (E.faults errors.old) (E.faults errors.new) result.status }
{
    match &words.journal {
        None => run_plain(
            rt, alloc, words, files, input, output, errors, clock, listener, spawner, ports,
        ),
        Some(name) => run_kept(
            rt,
            alloc,
            words,
            name.as_str(),
            files,
            logs,
            input,
            output,
            errors,
            clock,
            listener,
            spawner,
            ports,
        ),
    }
}

/// A run by words that name no journal.
fn run_plain<
    F: Files,
    S: Source,
    K: Sink,
    E: Sink,
    C: Clock + Drop + Send + 'static,
    L: Listener,
    Q: Ports + Drop + Send + 'static,
    R: Wait + rt::Clock + Threads + Copy + Drop + Send + 'static,
>(
    rt: &R,
    alloc: Global,
    words: &Words,
    files: &mut F,
    input: &mut S,
    output: &mut K,
    errors: &mut E,
    clock: &mut C,
    listener: &mut L,
    spawner: &mut Spawner,
    ports: &mut Q,
) -> Ran
where
    L::In: Drop + Send + 'static,
    L::Out: Drop + Send + 'static,
    Q::Port: Drop + Send + 'static,
    requires workers { (1 ≤ words.now.workers) × (words.now.workers ≤ 16) }
    requires connections { 1 ≤ words.now.connections }
    ensures ran { RanMode (address_in (said_by words.now).way) (said_by words.now) (record {
      file = F.told files.old;
      journal = λ name. None;
      left = change (S.left input.old) (S.left input.new);
      written = change (K.written output.old) (K.written output.new);
      file_faults = change (F.faults files.old) (F.faults files.new);
      journal_faults = change 0 0;
      read_faults = change (S.faults input.old) (S.faults input.new);
      write_faults = change (K.faults output.old) (K.faults output.new);
      clock = change (clocked (C.last clock.old) (C.readings clock.old)) (clocked (C.last clock.new) (C.readings clock.new));
    }) result.status result.connection }
    ensures closed { result.status ≡ Status.Done → ServesAt (said_by words.now).way (L.left listener.new) (Q.left ports.new) }
    ensures listener { result.status ≡ Status.Listener → ListenerRose (said_by words.now).way (change (L.faults listener.old) (L.faults listener.new)) (change spawner.old.plan.faults spawner.new.plan.faults) (change (Q.faults ports.old) (Q.faults ports.new)) }
    ensures served { ServesBy (said_by words.now).way (said_by words.now) (F.told files.old) L.left (ends_by L.In.left L.Out.written L.In.faults L.Out.faults)
        (arrivals (change (L.left listener.old) (L.left listener.new)) (change spawner.old.plan.next spawner.new.plan.next)) result.status }
    ensures told { TellsAt (address_in (said_by words.now).way) (said_by words.now).users result.connection (E.written errors.old) (E.written errors.new) (E.faults errors.old) (E.faults errors.new) result.status }
{
    match &words.mode {
        Mode::Pipe => run_pipe(rt, alloc, words, files, input, output, errors, clock),
        Mode::Serve(address) => unserved(run_server(
            rt,
            alloc,
            words,
            address.as_str(),
            files,
            errors,
            clock,
            listener,
            spawner,
        )),
        Mode::Loop(address) => unserved(run_looped(
            rt,
            alloc,
            words,
            address.as_str(),
            files,
            errors,
            clock,
            spawner,
            ports,
        )),
    }
}

/// A run in mode `loop`.
fn run_looped<
    F: Files,
    E: Sink,
    C: Clock + Drop + Send + 'static,
    Q: Ports + Drop + Send + 'static,
    R: Wait + rt::Clock + Threads + Copy + Drop + Send + 'static,
>(
    rt: &R,
    alloc: Global,
    words: &Words,
    address: &str,
    files: &mut F,
    errors: &mut E,
    clock: &C,
    spawner: &mut Spawner,
    ports: &mut Q,
) -> Status
where
    Q::Port: Drop + Send + 'static,
    requires workers { (1 ≤ words.now.workers) × (words.now.workers ≤ 16) }
    ensures cause { IsServerEnd (F.told files.old (said_by words.now).users) (change (F.faults files.old) (F.faults files.new)) result }
    ensures closed { result ≡ Status.Done → HasNoneLeft (Q.left ports.new) }
    ensures listener { result ≡ Status.Listener → Rose (Q.faults ports.old) (Q.faults ports.new) }
    ensures told { TellsServer (said_by words.now).users address.now (E.written errors.old) (E.written errors.new) (E.faults errors.old) (E.faults errors.new) result }
{
    match users_told(alloc, words.users.as_str(), files, errors) {
        Ok(directory) => loop_for(
            rt, alloc, words, address, directory, errors, clock, spawner, ports,
        ),
        Err(status) => status,
    }
}

/// Binds the address, and serves by loops for these users the connections that come.
fn loop_for<
    E: Sink,
    C: Clock + Drop + Send + 'static,
    Q: Ports + Drop + Send + 'static,
    R: Wait + rt::Clock + Threads + Copy + Drop + Send + 'static,
>(
    rt: &R,
    alloc: Global,
    words: &Words,
    address: &str,
    directory: Directory,
    errors: &mut E,
    clock: &C,
    spawner: &mut Spawner,
    ports: &mut Q,
) -> Status
where
    Q::Port: Drop + Send + 'static,
    requires workers { (1 ≤ words.now.workers) × (words.now.workers ≤ 16) }
    ensures only { IsServerStatus result }
    ensures closed { result ≡ Status.Done → HasNoneLeft (Q.left ports.new) }
    ensures listener { result ≡ Status.Listener → Rose (Q.faults ports.old) (Q.faults ports.new) }
    ensures told { TellsServer (said_by words.now).users address.now (E.written errors.old) (E.written errors.new) (E.faults errors.old) (E.faults errors.new) result }
{
    match server_for(alloc, directory, words.workers, words.requests) {
        Ok((server, pass)) => {
            let says = b", and keeps nothing: no journal is named\n";
            loop_on(
                rt, alloc, server, pass, words, address, says, errors, clock, spawner, ports,
            )
        }
        Err(refused) => {
            let status = Status::Memory(refused);
            tell(errors, status, None);
            status
        }
    }
}

/// A run in mode `pipe`.
fn run_pipe<F: Files, S: Source, K: Sink, E: Sink, C: Clock, R: Wait + rt::Clock>(
    rt: &R,
    alloc: Global,
    words: &Words,
    files: &mut F,
    input: &mut S,
    output: &mut K,
    errors: &mut E,
    clock: &mut C,
) -> Ran
    requires workers { (1 ≤ words.now.workers) × (words.now.workers ≤ 16) }
    ensures ran { RanPipe (said_by words.now) (record {
      file = F.told files.old;
      journal = λ name. None;
      left = change (S.left input.old) (S.left input.new);
      written = change (K.written output.old) (K.written output.new);
      file_faults = change (F.faults files.old) (F.faults files.new);
      journal_faults = change 0 0;
      read_faults = change (S.faults input.old) (S.faults input.new);
      write_faults = change (K.faults output.old) (K.faults output.new);
      clock = change (clocked (C.last clock.old) (C.readings clock.old)) (clocked (C.last clock.new) (C.readings clock.new));
    }) result.status result.connection }
    ensures told { TellsPipe (said_by words.now).users result.connection (E.written errors.old) (E.written errors.new) (E.faults errors.old) (E.faults errors.new) result.status }
{
    match users_told(alloc, words.users.as_str(), files, errors) {
        Ok(directory) => {
            let (status, connection) = serve_users(
                rt,
                alloc,
                directory,
                words.workers,
                words.requests,
                input,
                output,
                clock,
            );
            tell(errors, status, None);
            Ran { status, connection }
        }
        Err(status) => unserved(status),
    }
}

/// A run in mode `serve`.
fn run_server<
    F: Files,
    E: Sink,
    C: Clock + Drop + Send + 'static,
    L: Listener,
    R: Wait + rt::Clock + Threads + Copy + Drop + Send + 'static,
>(
    rt: &R,
    alloc: Global,
    words: &Words,
    address: &str,
    files: &mut F,
    errors: &mut E,
    clock: &C,
    listener: &mut L,
    spawner: &mut Spawner,
) -> Status
where
    L::In: Drop + Send + 'static,
    L::Out: Drop + Send + 'static,
    requires workers { (1 ≤ words.now.workers) × (words.now.workers ≤ 16) }
    requires connections { 1 ≤ words.now.connections }
    ensures cause { IsServerEnd (F.told files.old (said_by words.now).users) (change (F.faults files.old) (F.faults files.new)) result }
    ensures closed { result ≡ Status.Done → HasNoneLeft (L.left listener.new) }
    ensures listener { result ≡ Status.Listener → Rose (L.faults listener.old) (L.faults listener.new) ⊎ Rose spawner.old.plan.faults spawner.new.plan.faults }
    ensures served { ServesFile (said_by words.now) (F.told files.old) L.left (ends_by L.In.left L.Out.written L.In.faults L.Out.faults)
        (arrivals (change (L.left listener.old) (L.left listener.new)) (change spawner.old.plan.next spawner.new.plan.next)) result }
    ensures told { TellsServer (said_by words.now).users address.now (E.written errors.old) (E.written errors.new) (E.faults errors.old) (E.faults errors.new) result }
{
    match users_told(alloc, words.users.as_str(), files, errors) {
        Ok(directory) => {
            listen(
                rt, alloc, words, address, directory, errors, clock, listener, spawner,
            )
        }
        Err(status) => status,
    }
}

/// Binds the address, and serves for these users the connections that come.
fn listen<
    E: Sink,
    C: Clock + Drop + Send + 'static,
    L: Listener,
    R: Wait + rt::Clock + Threads + Copy + Drop + Send + 'static,
>(
    rt: &R,
    alloc: Global,
    words: &Words,
    address: &str,
    directory: Directory,
    errors: &mut E,
    clock: &C,
    listener: &mut L,
    spawner: &mut Spawner,
) -> Status
where
    L::In: Drop + Send + 'static,
    L::Out: Drop + Send + 'static,
    requires workers { (1 ≤ words.now.workers) × (words.now.workers ≤ 16) }
    requires connections { 1 ≤ words.now.connections }
    ensures only { IsServerStatus result }
    ensures closed { result ≡ Status.Done → HasNoneLeft (L.left listener.new) }
    ensures listener { result ≡ Status.Listener → Rose (L.faults listener.old) (L.faults listener.new) ⊎ Rose spawner.old.plan.faults spawner.new.plan.faults }
    ensures served { ServesFor directory words.now.workers words.now.requests L.left (ends_by L.In.left L.Out.written L.In.faults L.Out.faults)
        (arrivals (change (L.left listener.old) (L.left listener.new)) (change spawner.old.plan.next spawner.new.plan.next)) result }
    ensures told { TellsServer (said_by words.now).users address.now (E.written errors.old) (E.written errors.new) (E.faults errors.old) (E.faults errors.new) result }
{
    set_up(words, listener);
    match listener.listen(address) {
        Listened::Failed => tell_about(alloc, errors, Status::Listener, address),
        Listened::Done => {
            tell_address(
                errors,
                address,
                b", and keeps nothing: no journal is named\n",
            );
            let status = serve_site(rt, alloc, words, directory, clock, listener, spawner);
            tell(errors, status, None);
            status
        }
    }
}

/// Tells a listener what the words say of its connections.
pub(crate) fn set_up<L: Listener>(words: &Words, listener: &mut L)
    ensures kept { L.left listener.new ≡ L.left listener.old }
    ensures count { L.faults listener.new ≡ L.faults listener.old }
{
    listener.limit_silence(words.idle);
    if words.until_eof {
        listener.end_with_input();
    }
}

/// Serves for these users the connections that come.
fn serve_site<
    C: Clock + Drop + Send + 'static,
    L: Listener,
    R: Wait + rt::Clock + Threads + Copy + Drop + Send + 'static,
>(
    rt: &R,
    alloc: Global,
    words: &Words,
    directory: Directory,
    clock: &C,
    listener: &mut L,
    spawner: &mut Spawner,
) -> Status
where
    L::In: Drop + Send + 'static,
    L::Out: Drop + Send + 'static,
    requires workers { (1 ≤ words.now.workers) × (words.now.workers ≤ 16) }
    requires connections { 1 ≤ words.now.connections }
    ensures only { IsServerStatus result }
    ensures closed { result ≡ Status.Done → HasNoneLeft (L.left listener.new) }
    ensures listener { result ≡ Status.Listener → Rose (L.faults listener.old) (L.faults listener.new) ⊎ Rose spawner.old.plan.faults spawner.new.plan.faults }
    ensures served { ServesFor directory words.now.workers words.now.requests L.left (ends_by L.In.left L.Out.written L.In.faults L.Out.faults)
        (arrivals (change (L.left listener.old) (L.left listener.new)) (change spawner.old.plan.next spawner.new.plan.next)) result }
{
    match server_for(alloc, directory, words.workers, words.requests) {
        Ok((server, pass)) => {
            let (served, _pass) = serve(
                rt,
                alloc,
                server,
                pass,
                words.connections,
                listener,
                spawner,
                clock,
            );
            server_status(served)
        }
        Err(refused) => Status::Memory(refused),
    }
}

/// The users of the file of a name, or the status of a run that has none, which is told.
pub(crate) fn users_told<F: Files, E: Sink>(
    alloc: Global,
    name: &str,
    files: &mut F,
    errors: &mut E,
) -> Result<Directory, Status>
    ensures users { IfOk result (λ users. HasUsers (F.told files.old name.now) users) }
    ensures cause { IfErr result (λ s. IsCause (F.told files.old name.now) (change (F.faults files.old) (F.faults files.new)) s) }
    ensures told { MatchResult result (λ users. errors.new ≡ errors.old) (λ s. Tells (E.written errors.old) (E.written errors.new) (E.faults errors.old) (E.faults errors.new) (line_of s (Some (shown name.now)))) }
{
    match users_of(alloc, name, files) {
        Ok(directory) => Ok(directory),
        Err(status) => Err(tell_about(alloc, errors, status, name)),
    }
}

/// The users of the file of a name, or the status of a run that has none.
#[tactic(auto, using(crate::proofs::Outcomes::users_read, crate::proofs::Outcomes::line_read, crate::proofs::Outcomes::too_long))]
fn users_of<F: Files>(alloc: Global, name: &str, files: &mut F) -> Result<Directory, Status>
    ensures users { IfOk result (λ users. HasUsers (F.told files.old name.now) users) }
    ensures cause { IfErr result (λ s. IsCause (F.told files.old name.now) (change (F.faults files.old) (F.faults files.new)) s) }
{
    let bytes = match files.read(alloc, name, USERS_LIMIT) {
        Ok(bytes) => bytes,
        Err(FileFault::Failed) => return Err(Status::Outside),
        Err(FileFault::TooLong) => return Err(Status::UsersFile(0)),
        Err(FileFault::Memory(refused)) => return Err(Status::Memory(refused.into())),
    };
    match read_users(alloc, bytes.as_slice()) {
        Ok(directory) => Ok(directory),
        Err(UsersFault::Line(line)) => Err(Status::UsersFile(line)),
        Err(UsersFault::Memory(refused)) => Err(Status::Memory(refused)),
    }
}

/// A run that puts a text to `output`.
fn print_text<K: Sink, E: Sink>(text: &str, output: &mut K, errors: &mut E) -> Ran
    ensures prints { Prints (change (K.written output.old) (K.written output.new)) (change (K.faults output.old) (K.faults output.new)) result.status }
    ensures connection { result.connection ≡ None }
    ensures told { Tells (E.written errors.old) (E.written errors.new) (E.faults errors.old) (E.faults errors.new) (line_of result.status None) }
{
    match output.put(text.as_bytes()) {
        Put::Done => unserved_for(Status::Done, errors),
        Put::Failed => unserved_for(Status::Outside, errors),
    }
}

/// A run that served no connection, and tells why, where its status isn't `Done`.
fn unserved_for<E: Sink>(status: Status, errors: &mut E) -> Ran
    ensures status { result.status ≡ status }
    ensures connection { result.connection ≡ None }
    ensures told { Tells (E.written errors.old) (E.written errors.new) (E.faults errors.old) (E.faults errors.new) (line_of status None) }
{
    tell(errors, status, None);
    unserved(status)
}

/// A run that served no connection over `input` and `output`.
pub(crate) fn unserved(status: Status) -> Ran
    ensures status { result.status ≡ status }
    ensures connection { result.connection ≡ None }
{
    Ran {
        status,
        connection: None,
    }
}
