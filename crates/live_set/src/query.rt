//! Queries: one of the four gettext calls, in a domain and a list of languages.
use std::marker::Model;

/// A call of gettext, pgettext, ngettext or npgettext, with its arguments.
#[derive(Debug, Drop)]
pub enum Ask {
    /// gettext: the translation of a msgid.
    Plain {
        id: String,
    },
    /// pgettext: the translation of a msgid in a context.
    Context {
        context: String,
        id: String,
    },
    /// ngettext: the plural form for a number.
    Number {
        id: String,
        plural: String,
        n: u64,
    },
    /// npgettext: the plural form for a number, of a message in a context.
    ContextNumber {
        context: String,
        id: String,
        plural: String,
        n: u64,
    },
}

/// A call in a domain and a list of languages, which may be any texts. Contracts see it by the bytes of its texts.
///
/// The list names the locales in which the message is looked up, in order, as in the variable LANGUAGE (GNU gettext
/// manual, "The LANGUAGE variable"). Its members are separated by `:`, and empty ones are skipped. A member `ll_CC`
/// with no codeset and no variant means itself, and then `ll`. A member `C` or `POSIX` ends the list.
#[derive(Debug, Drop)]
pub struct Query {
    pub domain: String,
    pub languages: String,
    pub ask: Ask,
}

impl Model for Query {
    ghost use Rattle.live_set.specs.Asks.{QueryValue};

    ghost Value = { QueryValue };

    ghost use Rattle.std.specs.Prelude.{string_bytes};
    ghost use Rattle.live_set.specs.Asks.{ask_value};

    ghost view = { λ query. record {
      domain = string_bytes query.domain;
      languages = string_bytes query.languages;
      ask =
          ask_value query.ask;
    } };
}
