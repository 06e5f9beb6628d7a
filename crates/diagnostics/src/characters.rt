//! Characters that a reader can't see, or takes for another one.
use crate::report::Report;

/// A character, its name in Unicode, and the character that was likely meant: none if it does not belong there.
pub(crate) struct LookAlike(char, &'static str, Option<char>);

const LOOK_ALIKES: [LookAlike; 49] = [
    LookAlike('\u{0}', "NUL", None),
    LookAlike('\u{85}', "next line", Some('\n')),
    LookAlike('\u{a0}', "no-break space", Some(' ')),
    LookAlike('\u{ab}', "left double angle quotation mark", Some('"')),
    LookAlike('\u{ad}', "soft hyphen", None),
    LookAlike('\u{b4}', "acute accent", Some('"')),
    LookAlike('\u{bb}', "right double angle quotation mark", Some('"')),
    LookAlike('\u{2002}', "en space", Some(' ')),
    LookAlike('\u{2003}', "em space", Some(' ')),
    LookAlike('\u{2007}', "figure space", Some(' ')),
    LookAlike('\u{2008}', "punctuation space", Some(' ')),
    LookAlike('\u{2009}', "thin space", Some(' ')),
    LookAlike('\u{200a}', "hair space", Some(' ')),
    LookAlike('\u{200b}', "zero width space", None),
    LookAlike('\u{200c}', "zero width non-joiner", None),
    LookAlike('\u{200d}', "zero width joiner", None),
    LookAlike('\u{200e}', "left-to-right mark", None),
    LookAlike('\u{200f}', "right-to-left mark", None),
    LookAlike('\u{2010}', "hyphen", Some('-')),
    LookAlike('\u{2011}', "non-breaking hyphen", Some('-')),
    LookAlike('\u{2012}', "figure dash", Some('-')),
    LookAlike('\u{2013}', "en dash", Some('-')),
    LookAlike('\u{2014}', "em dash", Some('-')),
    LookAlike('\u{2018}', "left single quotation mark", Some('"')),
    LookAlike('\u{2019}', "right single quotation mark", Some('"')),
    LookAlike('\u{201a}', "single low-9 quotation mark", Some('"')),
    LookAlike('\u{201c}', "left double quotation mark", Some('"')),
    LookAlike('\u{201d}', "right double quotation mark", Some('"')),
    LookAlike('\u{201e}', "double low-9 quotation mark", Some('"')),
    LookAlike('\u{2028}', "line separator", Some('\n')),
    LookAlike('\u{2029}', "paragraph separator", Some('\n')),
    LookAlike('\u{202a}', "left-to-right embedding", None),
    LookAlike('\u{202c}', "pop directional formatting", None),
    LookAlike('\u{202f}', "narrow no-break space", Some(' ')),
    LookAlike('\u{2032}', "prime", Some('"')),
    LookAlike('\u{2033}', "double prime", Some('"')),
    LookAlike('\u{2060}', "word joiner", None),
    LookAlike('\u{2212}', "minus sign", Some('-')),
    LookAlike('\u{3000}', "ideographic space", Some(' ')),
    LookAlike('\u{3001}', "ideographic comma", Some(',')),
    LookAlike('\u{feff}', "byte order mark", None),
    LookAlike('\u{ff02}', "fullwidth quotation mark", Some('"')),
    LookAlike('\u{ff0c}', "fullwidth comma", Some(',')),
    LookAlike('\u{ff0d}', "fullwidth hyphen-minus", Some('-')),
    LookAlike('\u{ff1a}', "fullwidth colon", Some(':')),
    LookAlike('\u{ff3b}', "fullwidth left square bracket", Some('[')),
    LookAlike('\u{ff3d}', "fullwidth right square bracket", Some(']')),
    LookAlike('\u{ff5b}', "fullwidth left curly bracket", Some('{')),
    LookAlike('\u{ff5d}', "fullwidth right curly bracket", Some('}')),
];

impl LookAlike {
    /// The entry of the character.
    pub(crate) fn of(character: char) -> Option<&'static LookAlike> {
        for look_alike in &LOOK_ALIKES {
            if look_alike.0 == character {
                return Some(look_alike);
            }
        }
        None
    }

    /// The first one in the text.
    pub(crate) fn first_in(text: &str) -> Option<&'static LookAlike> {
        for character in text.chars() {
            let look_alike = LookAlike::of(character);
            if look_alike.is_some() {
                return look_alike;
            }
        }
        None
    }

    /// Its code point and name, and what to do about it.
    pub(crate) fn report(&self, report: &mut Report) {
        report.push_code_point(self.0);
        report.push(" (");
        report.push(self.1);
        report.push("); ");
        match self.2 {
            None => report.push("delete it"),
            Some(' ') => report.push("write a space"),
            Some('\n') => report.push("write a line feed"),
            Some(meant) => {
                report.push("write `");
                report.push_character(meant);
                report.push("`");
            }
        }
    }
}

/// Whether the character shows nothing of itself, or looks like a space.
pub(crate) fn is_invisible(character: char) -> bool {
    match character {
        '\u{ad}'
        | '\u{a0}'
        | '\u{2000}'..='\u{200f}'
        | '\u{2028}'..='\u{202f}'
        | '\u{205f}'..='\u{2064}' => true,
        '\u{3000}' | '\u{feff}' => true,
        _ => false,
    }
}
