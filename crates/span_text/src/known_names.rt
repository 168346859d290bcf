//! Lists of names that shells give a meaning of their own.

ghost use Rattle.std.specs.Prelude.{◌≡◌, nat_eq};
ghost use Rattle.std.specs.List.{list_any, starts_with};
ghost use Rattle.span_text.specs.KnownNames as known;

const BUILTINS: [&[u8]; 23] = [
    b":",
    b"true",
    b"false",
    b"echo",
    b"printf",
    b"test",
    b"[",
    b"read",
    b"mapfile",
    b"readarray",
    b"set",
    b"shift",
    b"break",
    b"continue",
    b"return",
    b"exit",
    b"exec",
    b"export",
    b"unset",
    b"local",
    b"declare",
    b"typeset",
    b"readonly",
];

const REFUSED_BUILTINS: [&[u8]; 38] = [
    b".",
    b"alias",
    b"bg",
    b"bind",
    b"builtin",
    b"caller",
    b"cd",
    b"command",
    b"compgen",
    b"complete",
    b"compopt",
    b"dirs",
    b"disown",
    b"enable",
    b"eval",
    b"fc",
    b"fg",
    b"getopts",
    b"hash",
    b"help",
    b"history",
    b"jobs",
    b"kill",
    b"let",
    b"logout",
    b"popd",
    b"pushd",
    b"pwd",
    b"shopt",
    b"source",
    b"suspend",
    b"times",
    b"trap",
    b"type",
    b"ulimit",
    b"umask",
    b"unalias",
    b"wait",
];

const STANDARD_WORDS: [&[u8]; 16] = [
    b"if", b"then", b"elif", b"else", b"fi", b"for", b"in", b"until", b"while", b"do", b"done",
    b"case", b"esac", b"{", b"}", b"!",
];

const BASH_WORDS: [&[u8]; 6] = [b"time", b"select", b"function", b"coproc", b"[[", b"]]"];

const OTHER_COMMANDS: [&[u8]; 12] = [
    b"alloc",
    b"autoload",
    b"bindkey",
    b"bye",
    b"chdir",
    b"command_not_found_handle",
    b"disable",
    b"hist",
    b"print",
    b"repeat",
    b"stop",
    b"whence",
];

const SPECIAL_NAMES: [&[u8]; 42] = [
    b"_",
    b"IFS",
    b"RANDOM",
    b"SRANDOM",
    b"SECONDS",
    b"LINENO",
    b"PIPESTATUS",
    b"FUNCNAME",
    b"FUNCNEST",
    b"GROUPS",
    b"DIRSTACK",
    b"EPOCHSECONDS",
    b"EPOCHREALTIME",
    b"OPTIND",
    b"OPTARG",
    b"OPTERR",
    b"PPID",
    b"UID",
    b"EUID",
    b"SHELLOPTS",
    b"PWD",
    b"OLDPWD",
    b"SHLVL",
    b"HOSTNAME",
    b"HOSTTYPE",
    b"MACHTYPE",
    b"OSTYPE",
    b"ENV",
    b"LANG",
    b"TIMEFORMAT",
    b"POSIXLY_CORRECT",
    b"GLOBIGNORE",
    b"EXECIGNORE",
    b"TMOUT",
    b"COPROC",
    b"CHILD_MAX",
    b"COLUMNS",
    b"LINES",
    b"PS1",
    b"PS2",
    b"PS3",
    b"PS4",
];

const SPECIAL_PREFIXES: [&[u8]; 4] = [b"BASH", b"COMP_", b"LC_", b"HIST"];

fn is_among(names: &[&[u8]], text: &[u8]) -> bool
    ensures { result ≡ list_any (λ name. known.same_text name.now text.now) names.now }
{
    names.iter().any(|name| *name == text)
}

fn begins_with(prefixes: &[&[u8]], name: &[u8]) -> bool
    ensures { result ≡ list_any (λ prefix. starts_with nat_eq name.now prefix.now) prefixes.now }
{
    prefixes.iter().any(|prefix| name.starts_with(*prefix))
}

/// Whether a script may use this name as a built-in.
#[tactic(auto, unfolding(crate::specs::KnownNames::builtins))]
pub fn is_builtin(text: &[u8]) -> bool
    ensures { result ≡ known.is_builtin text.now }
{
    is_among(&BUILTINS, text)
}

/// Whether this is a built-in that no script may use.
#[tactic(auto, unfolding(crate::specs::KnownNames::refused_builtins))]
pub fn is_refused_builtin(text: &[u8]) -> bool
    ensures { result ≡ known.is_refused_builtin text.now }
{
    is_among(&REFUSED_BUILTINS, text)
}

/// Whether this is a reserved word of the standard.
#[tactic(auto, unfolding(crate::specs::KnownNames::standard_words))]
pub fn is_standard_word(text: &[u8]) -> bool
    ensures { result ≡ known.is_standard_word text.now }
{
    is_among(&STANDARD_WORDS, text)
}

/// Whether this is a reserved word that Bash adds.
#[tactic(auto, unfolding(crate::specs::KnownNames::bash_words))]
pub fn is_bash_word(text: &[u8]) -> bool
    ensures { result ≡ known.is_bash_word text.now }
{
    is_among(&BASH_WORDS, text)
}

#[tactic(auto, unfolding(crate::specs::KnownNames::other_commands))]
fn is_other_command(text: &[u8]) -> bool
    ensures { result ≡ known.is_among known.other_commands text.now }
{
    is_among(&OTHER_COMMANDS, text)
}

/// Whether this is a reserved word, or a command that another shell builds in.
pub fn is_restricted(text: &[u8]) -> bool
    ensures { result ≡ known.is_restricted text.now }
{
    is_standard_word(text) || is_bash_word(text) || is_other_command(text)
}

/// Whether a shell answers a command of this name by itself, or reads it as a word of its grammar.
pub fn is_known_command(text: &[u8]) -> bool
    ensures { result ≡ known.is_known_command text.now }
{
    is_builtin(text) || is_refused_builtin(text) || is_restricted(text)
}

#[tactic(auto, unfolding(crate::specs::KnownNames::special_names))]
fn is_special_word(name: &[u8]) -> bool
    ensures { result ≡ known.is_among known.special_names name.now }
{
    is_among(&SPECIAL_NAMES, name)
}

#[tactic(auto, unfolding(crate::specs::KnownNames::special_prefixes))]
fn has_special_prefix(name: &[u8]) -> bool
    ensures { result ≡ list_any (λ prefix. starts_with nat_eq name.now prefix) known.special_prefixes }
{
    begins_with(&SPECIAL_PREFIXES, name)
}

/// Whether a shell sets or reads a variable of this name by itself.
pub fn is_special_name(name: &[u8]) -> bool
    ensures { result ≡ known.is_special_name name.now }
{
    is_special_word(name) || has_special_prefix(name)
}
