//! Faulty words: the word at fault, and the closest form.
use super::closest::closest;
use super::forms::{Choice, FORMS, Form, Value, choice_of, form_of};
use super::page::Page;
use std::alloc::{AllocError, Global};

/// Whether a word begins as an option.
fn is_option(word: &str) -> bool {
    word.as_bytes().first() == Some(&b'-')
}

/// An option's name, and the value that follows a `=`.
fn parts_of(word: &str) -> (&str, Option<&str>) {
    match word.split_once('=') {
        Some((name, value)) => (name, Some(value)),
        None => (word, None),
    }
}

/// The number that 1 to 9 digits write.
fn number_in(text: &str) -> Option<u32> {
    let bytes = text.as_bytes();
    let digits = bytes.iter().all(|byte| byte.is_ascii_digit());
    if bytes.is_empty() || bytes.len() > 9 || !digits {
        return None;
    }
    text.parse::<u32>().ok()
}

/// Words that are read one after another, as far as they fit a form.
#[derive(Drop)]
struct Reader<'a> {
    alloc: Global,
    form: Form,
    seen: Vec<&'a str>,
    members: usize,
}

impl<'a> Reader<'a> {
    /// Says that a word is no option of the mode, and which one is close.
    fn unknown(&self, name: &str, page: &mut Page) -> Result<(), AllocError> {
        page.quote(name.as_bytes())?;
        page.say(" is no option of ")?;
        page.say(self.form.mode)?;
        let mut names = Vec::new(self.alloc);
        for choice in self.form.choices {
            names.push(choice.name.as_bytes())?;
        }
        say_closest(self.alloc, name.as_bytes(), names.as_slice(), page)
    }

    /// Says what is wrong with an option's value, if something is.
    fn judge_value(
        &self,
        choice: &Choice,
        value: Option<&str>,
        page: &mut Page,
    ) -> Result<bool, AllocError> {
        let fits = match (choice.value, value) {
            (Value::Nothing, None) => true,
            (Value::Nothing, Some(_)) | (_, None) => false,
            (_, Some(text)) if text.is_empty() || is_option(text) => false,
            (Value::File, Some(_)) => true,
            (Value::Number(low, high), Some(text)) => match number_in(text) {
                Some(number) => low <= number && number <= high,
                None => false,
            },
        };
        if !fits {
            say_value(choice, value, page)?;
        }
        Ok(fits)
    }

    /// Reads an option with the word after it. Answers how many words it has, or None where one is at fault.
    fn option(
        &mut self,
        word: &'a str,
        next: Option<&'a str>,
        page: &mut Page,
    ) -> Result<Option<usize>, AllocError> {
        let (name, own) = parts_of(word);
        let Some(choice) = choice_of(&self.form, name) else {
            self.unknown(name, page)?;
            return Ok(None);
        };
        if self.seen.iter().any(|seen| *seen == name) {
            page.quote(name.as_bytes())?;
            page.say(" is given twice")?;
            return Ok(None);
        }
        if self.members > 0 {
            page.quote(name.as_bytes())?;
            page.say(" stands after the first file of a member; options come before all of them")?;
            return Ok(None);
        }
        self.seen.push(name)?;
        let is_flag = matches!(choice.value, Value::Nothing);
        let value = if is_flag || own.is_some() { own } else { next };
        let count = if is_flag || own.is_some() { 1 } else { 2 };
        let fits = self.judge_value(&choice, value, page)?;
        Ok(if fits { Some(count) } else { None })
    }

    /// Reads a word with the word after it. Answers how many words were read, or None where one is at fault.
    fn word(
        &mut self,
        word: &'a str,
        next: Option<&'a str>,
        page: &mut Page,
    ) -> Result<Option<usize>, AllocError> {
        if word == "" || word == "-" || word == "--" {
            page.quote(word.as_bytes())?;
            page.say(" is neither an option nor a file")?;
            return Ok(None);
        }
        if is_option(word) {
            return self.option(word, next, page);
        }
        if !self.form.has_members {
            page.quote(word.as_bytes())?;
            page.say(" is one word too many: each file follows the option that it is for")?;
            return Ok(None);
        }
        self.members = self.members.saturating_add(1);
        Ok(Some(1))
    }

    /// Says which option is missing.
    fn say_missing(&self, page: &mut Page) -> Result<(), AllocError> {
        for choice in self.form.choices {
            let is_there = self.seen.iter().any(|seen| *seen == choice.name);
            if choice.is_due && !is_there {
                page.quote(choice.name.as_bytes())?;
                return page.say(" is missing");
            }
        }
        page.say("these words are in no form")
    }
}

/// Says what value an option takes.
fn say_value(choice: &Choice, value: Option<&str>, page: &mut Page) -> Result<(), AllocError> {
    page.quote(choice.name.as_bytes())?;
    match choice.value {
        Value::Nothing => return page.say(" takes no value"),
        Value::File => page.say(" takes the name of a file")?,
        Value::Number(low, high) => {
            page.say(" takes a number from ")?;
            page.number(u64::from(low))?;
            page.say(" to ")?;
            page.number(u64::from(high))?;
        }
    }
    match value {
        Some(text) => {
            page.say(", and not ")?;
            page.quote(text.as_bytes())
        }
        None => page.say(", and nothing follows it"),
    }
}

/// Says which of some words is close to one, if one is.
pub fn say_closest(
    alloc: Global,
    word: &[u8],
    others: &[&[u8]],
    page: &mut Page,
) -> Result<(), AllocError> {
    if let Some(other) = closest(alloc, word, others)? {
        page.say("; is ")?;
        page.quote(other)?;
        page.say(" meant?")?;
    }
    Ok(())
}

/// Says which word of a mode's is at fault.
fn say_fault(
    alloc: Global,
    form: Form,
    words: &[String],
    page: &mut Page,
) -> Result<(), AllocError> {
    let mut reader = Reader {
        alloc,
        form,
        seen: Vec::new(alloc),
        members: 0,
    };
    let mut skipped = 0;
    for (i, word) in words.iter().enumerate() {
        if skipped > 0 {
            skipped -= 1;
            continue;
        }
        let next = words.get(i.saturating_add(1)).map(|next| next.as_str());
        match reader.word(word.as_str(), next, page)? {
            Some(count) => skipped = usize::saturating_sub(count, 1),
            None => return Ok(()),
        }
    }
    reader.say_missing(page)
}

/// Says that a word is no mode, and which one is close.
fn say_no_mode(alloc: Global, word: &str, page: &mut Page) -> Result<(), AllocError> {
    page.quote(word.as_bytes())?;
    page.say(" is no mode that is explained")?;
    let mut names = Vec::new(alloc);
    for form in &FORMS {
        names.push(form.mode.as_bytes())?;
    }
    say_closest(alloc, word.as_bytes(), names.as_slice(), page)
}

/// Says all forms.
fn say_forms(page: &mut Page) -> Result<(), AllocError> {
    page.note("The forms are:")?;
    for form in &FORMS {
        page.say("    ")?;
        page.say(form.text)?;
        page.end()?;
    }
    Ok(())
}

/// Says which word is at fault where words are in no form, and the form that is the closest.
pub fn explain_words(alloc: Global, words: &[String], page: &mut Page) -> Result<(), AllocError> {
    page.say("the words: ")?;
    let Some((mode, rest)) = words.split_first() else {
        page.say("there are none\n")?;
        return say_forms(page);
    };
    let Some(form) = form_of(mode.as_str()) else {
        say_no_mode(alloc, mode.as_str(), page)?;
        page.end()?;
        return say_forms(page);
    };
    say_fault(alloc, form, rest, page)?;
    page.end()?;
    page.say("  The form is: ")?;
    page.say(form.text)?;
    page.end()
}
