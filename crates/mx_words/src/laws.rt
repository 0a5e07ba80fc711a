//! What the words ask, in words that are written out.
ghost use Rattle.std.specs.Prelude.{◌≡◌, ◌∷◌, List, ℕ, codes, false};
ghost use Rattle.std.specs.Str.Parse.{starts_with_minus};
ghost use Rattle.mx_words.specs.Words.{Help, Says, Version, asked_of, loop_said, loop_words, pipe_said, pipe_words};

/// The words `--users FILE --mode pipe` are read, where the name of the file doesn't begin with `-`: one writer a stream, 64 connections,
/// 1,000 requests for each, 60 seconds of silence, and no end with the standard input.
#[tactic(auto, using(crate::proofs::PipeWords::pipe_words_read))]
pub fn pipe_words_are_read()
    ensures { (file : List ℕ) → starts_with_minus file ≡ false → asked_of (pipe_words file) ≡ Says (pipe_said file) }
{}

/// The words `--users FILE --mode loop --listen ADDRESS` are read, where neither the name of the file nor the address begins with `-`: one
/// thread, one writer a stream, 10,000 connections, 1,000 requests for each, 60 seconds of silence, and no end with the standard input.
#[tactic(auto, using(crate::proofs::LoopWords::loop_words_read))]
pub fn loop_words_are_read()
    ensures { (file address : List ℕ) → starts_with_minus file ≡ false → starts_with_minus address ≡ false
        → asked_of (loop_words file address) ≡ Says (loop_said file address) }
{}

/// `--help` and `--version` as the first word ask for the help and the version, whatever follows.
#[tactic(auto, using(crate::proofs::PipeWords::help_first, crate::proofs::PipeWords::version_first))]
pub fn help_and_version_are_asked()
    ensures help { (rest : List (List ℕ)) → asked_of (codes "--help" ∷ rest) ≡ Help }
    ensures version { (rest : List (List ℕ)) → asked_of (codes "--version" ∷ rest) ≡ Version }
{}
