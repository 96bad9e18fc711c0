//! The form of the words after the mode, which is tested before they are parsed. The tests take no memory.
ghost use Rattle.std.specs.List.{list_any};
ghost use Rattle.std.specs.Prelude.{◌≡◌, false};
ghost use Rattle.ps_world.specs.Lines.{same_text};
ghost use Rattle.ps_words.specs.Words.{word_texts, is_option, is_value, is_bare, has_no_bare, name_of, is_named, is_repeated, has_distinct_options};
ghost use Rattle.ps_words.specs.Words.{has_equals, has_good_value, has_good_values, flags, awaits_value, options_stand_first, is_well_formed};
ghost use Rattle.ps_words.specs.Words.{has_option, has_named, attached};

/// Whether a word begins with `-`.
fn is_option(word: &str) -> bool
    ensures { result ≡ is_option word.now }
{
    word.as_bytes().first() == Some(&b'-')
}

/// Whether a text may be an option's value: it isn't empty, and doesn't begin with `-`.
fn is_value(text: &str) -> bool
    ensures { result ≡ is_value text.now }
{
    !text.is_empty() && !is_option(text)
}

/// Whether a word is empty, `-` or `--`.
fn is_bare(word: &str) -> bool
    ensures { result ≡ is_bare word.now }
{
    word == "" || word == "-" || word == "--"
}

/// Whether no word is empty, `-` or `--`.
fn has_no_bare(words: &[String]) -> bool
    ensures { result ≡ has_no_bare (word_texts words.now) }
{
    for word in words {
        if is_bare(word.as_str()) {
            return false;
        }
    }
    true
}

/// What stands before the first `=` of a word, or all of it.
fn name_of(word: &str) -> &str
    ensures { result.now ≡ name_of word.now }
{
    match word.split_once('=') {
        Some((name, _)) => name,
        None => word,
    }
}

/// Whether a word is an option of this name.
fn is_named(name: &str, word: &str) -> bool
    ensures { result ≡ is_named name.now word.now }
{
    is_option(word) && name_of(word) == name
}

/// Whether one of the words is an option of this name.
fn has_named(name: &str, words: &[String]) -> bool
    ensures { result ≡ has_named name.now (word_texts words.now) }
{
    for word in words {
        if is_named(name, word.as_str()) {
            return true;
        }
    }
    false
}

/// Whether a word is an option whose name one of the others has.
fn is_repeated(word: &str, others: &[String]) -> bool
    ensures { result ≡ is_repeated word.now (word_texts others.now) }
{
    is_option(word) && has_named(name_of(word), others)
}

/// Whether no two options have one name.
fn has_distinct_options(words: &[String]) -> bool
    ensures { result ≡ has_distinct_options (word_texts words.now) }
{
    for (i, word) in words.iter().enumerate() {
        if is_repeated(word.as_str(), &words[i + 1..]) {
            return false;
        }
    }
    true
}

/// Whether a word has an `=`.
fn has_equals(word: &str) -> bool
    ensures { result ≡ has_equals word.now }
{
    word.as_bytes().contains(&b'=')
}

/// What stands after the first `=` of a word, or nothing.
fn attached(word: &str) -> &str
    ensures { result.now ≡ attached word.now }
{
    match word.split_once('=') {
        Some((_, value)) => value,
        None => "",
    }
}

/// Whether what an option has after its first `=` is a value. A word that isn't an option, or has no `=`, is good.
fn has_good_value(word: &str) -> bool
    ensures { result ≡ has_good_value word.now }
{
    !is_option(word) || !has_equals(word) || is_value(attached(word))
}

/// Whether each option that has an `=` has a value after it.
fn has_good_values(words: &[String]) -> bool
    ensures { result ≡ has_good_values (word_texts words.now) }
{
    for word in words {
        if !has_good_value(word.as_str()) {
            return false;
        }
    }
    true
}

/// Whether a word is an option that has no value.
fn is_flag(word: &str) -> bool
    ensures { result ≡ list_any (same_text word.now) flags }
{
    word == "--ordered" || word == "--reports"
}

/// Whether a word is an option whose value is the next word.
fn awaits_value(word: &str) -> bool
    ensures { result ≡ awaits_value word.now }
{
    is_option(word) && !has_equals(word) && !is_flag(word)
}

/// Whether one of the words is an option.
fn has_option(words: &[String]) -> bool
    ensures { result ≡ has_option (word_texts words.now) }
{
    for word in words {
        if is_option(word.as_str()) {
            return true;
        }
    }
    false
}

/// Whether no option stands after a member word, which is a word that is neither an option nor the value of the word before it.
fn options_stand_first(words: &[String]) -> bool
    ensures { result ≡ options_stand_first false (word_texts words.now) }
{
    let mut awaited = false;
    for (i, word) in words.iter().enumerate() {
        let word = word.as_str();
        if !is_option(word) && !awaited {
            return !has_option(&words[i + 1..]);
        }
        awaited = awaits_value(word);
    }
    true
}

/// Whether the words after the mode have the form of options with their values, and of member words after them, whatever the options are
/// called.
pub fn is_well_formed(words: &[String]) -> bool
    ensures { result ≡ is_well_formed (word_texts words.now) }
{
    has_no_bare(words)
        && has_distinct_options(words)
        && has_good_values(words)
        && options_stand_first(words)
}
