//! The headline's law on exchanges in any order, of clients that redact their copies by what their timelines hold.

ghost use Rattle.mx_refold.specs.Clients.{ClientsRedact, RedactsAlike};

/// Whatever is asked, each on whatever beginning of the stores, in any order: the chain of a device and a filter, once its
/// copies are redacted by all redactions that its timelines hold, agrees with the picture at its token.
pub fn clients_redact<V, D>()
    ensures { ClientsRedact V D }
{}

/// It is the same whether a client applies these redactions after each answer, or once in the end.
pub fn redacts_alike<V, D>()
    ensures { RedactsAlike V D }
{}
