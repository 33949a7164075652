//! Languages whose formats an entry of a PO text can be flagged with, beside C (GNU gettext manual, "PO Files").
ghost use Rattle.std.specs.Prelude.{◌≡◌, ◌<◌, option_map};
ghost use Rattle.std.specs.List.{find};
ghost use Rattle.format_flags.specs.Languages as spec;

/// A language whose formats have a flag, such as `python-format`.
#[derive(Clone, Copy, Debug, PartialEq, Eq)]
pub enum Language {
    /// `objc-format`
    ObjectiveC,
    /// `c++-format`
    CPlusPlus,
    /// `python-format`
    Python,
    /// `python-brace-format`
    PythonBrace,
    /// `java-format`
    Java,
    /// `java-printf-format`
    JavaPrintf,
    /// `csharp-format`
    CSharp,
    /// `javascript-format`
    JavaScript,
    /// `scheme-format`
    Scheme,
    /// `lisp-format`
    Lisp,
    /// `elisp-format`
    EmacsLisp,
    /// `librep-format`
    Librep,
    /// `rust-format`
    Rust,
    /// `go-format`
    Go,
    /// `ruby-format`
    Ruby,
    /// `sh-format`
    Shell,
    /// `sh-printf-format`
    ShellPrintf,
    /// `awk-format`
    Awk,
    /// `lua-format`
    Lua,
    /// `object-pascal-format`
    ObjectPascal,
    /// `modula2-format`
    Modula2,
    /// `d-format`
    D,
    /// `ocaml-format`
    OCaml,
    /// `smalltalk-format`
    Smalltalk,
    /// `qt-format`
    Qt,
    /// `qt-plural-format`
    QtPlural,
    /// `kde-format`
    Kde,
    /// `kde-kuit-format`
    KdeKuit,
    /// `boost-format`
    Boost,
    /// `tcl-format`
    Tcl,
    /// `perl-format`
    Perl,
    /// `perl-brace-format`
    PerlBrace,
    /// `php-format`
    Php,
    /// `gcc-internal-format`
    GccInternal,
    /// `gfc-internal-format`
    GfcInternal,
    /// `ycp-format`
    Ycp,
}

const LANGUAGES: &[Language] = &[
    Language::ObjectiveC,
    Language::CPlusPlus,
    Language::Python,
    Language::PythonBrace,
    Language::Java,
    Language::JavaPrintf,
    Language::CSharp,
    Language::JavaScript,
    Language::Scheme,
    Language::Lisp,
    Language::EmacsLisp,
    Language::Librep,
    Language::Rust,
    Language::Go,
    Language::Ruby,
    Language::Shell,
    Language::ShellPrintf,
    Language::Awk,
    Language::Lua,
    Language::ObjectPascal,
    Language::Modula2,
    Language::D,
    Language::OCaml,
    Language::Smalltalk,
    Language::Qt,
    Language::QtPlural,
    Language::Kde,
    Language::KdeKuit,
    Language::Boost,
    Language::Tcl,
    Language::Perl,
    Language::PerlBrace,
    Language::Php,
    Language::GccInternal,
    Language::GfcInternal,
    Language::Ycp,
];

/// What stands before `-format` in the flag of a language.
fn name(language: Language) -> &'static [u8]
    ensures { result.now ≡ spec.name language }
{
    match language {
        Language::ObjectiveC => b"objc".as_slice(),
        Language::CPlusPlus => b"c++".as_slice(),
        Language::Python => b"python".as_slice(),
        Language::PythonBrace => b"python-brace".as_slice(),
        Language::Java => b"java".as_slice(),
        Language::JavaPrintf => b"java-printf".as_slice(),
        Language::CSharp => b"csharp".as_slice(),
        Language::JavaScript => b"javascript".as_slice(),
        Language::Scheme => b"scheme".as_slice(),
        Language::Lisp => b"lisp".as_slice(),
        Language::EmacsLisp => b"elisp".as_slice(),
        Language::Librep => b"librep".as_slice(),
        Language::Rust => b"rust".as_slice(),
        Language::Go => b"go".as_slice(),
        Language::Ruby => b"ruby".as_slice(),
        Language::Shell => b"sh".as_slice(),
        Language::ShellPrintf => b"sh-printf".as_slice(),
        Language::Awk => b"awk".as_slice(),
        Language::Lua => b"lua".as_slice(),
        Language::ObjectPascal => b"object-pascal".as_slice(),
        Language::Modula2 => b"modula2".as_slice(),
        Language::D => b"d".as_slice(),
        Language::OCaml => b"ocaml".as_slice(),
        Language::Smalltalk => b"smalltalk".as_slice(),
        Language::Qt => b"qt".as_slice(),
        Language::QtPlural => b"qt-plural".as_slice(),
        Language::Kde => b"kde".as_slice(),
        Language::KdeKuit => b"kde-kuit".as_slice(),
        Language::Boost => b"boost".as_slice(),
        Language::Tcl => b"tcl".as_slice(),
        Language::Perl => b"perl".as_slice(),
        Language::PerlBrace => b"perl-brace".as_slice(),
        Language::Php => b"php".as_slice(),
        Language::GccInternal => b"gcc-internal".as_slice(),
        Language::GfcInternal => b"gfc-internal".as_slice(),
        Language::Ycp => b"ycp".as_slice(),
    }
}

/// The language with this name.
pub(crate) fn language_named(text: &[u8]) -> Option<&'static Language>
    ensures { option_map (λ language. language.now) result ≡ spec.language_named text.now }
{
    LANGUAGES.iter().find(|language| name(**language) == text)
}

/// The number of a language, counted from 0.
pub(crate) fn number(language: Language) -> u32
    ensures is { result ≡ spec.number language }
    ensures few { result < 64 }
{
    match language {
        Language::ObjectiveC => 0,
        Language::CPlusPlus => 1,
        Language::Python => 2,
        Language::PythonBrace => 3,
        Language::Java => 4,
        Language::JavaPrintf => 5,
        Language::CSharp => 6,
        Language::JavaScript => 7,
        Language::Scheme => 8,
        Language::Lisp => 9,
        Language::EmacsLisp => 10,
        Language::Librep => 11,
        Language::Rust => 12,
        Language::Go => 13,
        Language::Ruby => 14,
        Language::Shell => 15,
        Language::ShellPrintf => 16,
        Language::Awk => 17,
        Language::Lua => 18,
        Language::ObjectPascal => 19,
        Language::Modula2 => 20,
        Language::D => 21,
        Language::OCaml => 22,
        Language::Smalltalk => 23,
        Language::Qt => 24,
        Language::QtPlural => 25,
        Language::Kde => 26,
        Language::KdeKuit => 27,
        Language::Boost => 28,
        Language::Tcl => 29,
        Language::Perl => 30,
        Language::PerlBrace => 31,
        Language::Php => 32,
        Language::GccInternal => 33,
        Language::GfcInternal => 34,
        Language::Ycp => 35,
    }
}
