//! Texts by name: files in memory, and what came of a run over them.

use crate::text::Text;
use cli::{Named, NamedFault};
use std::alloc::{AllocError, Global};
use std::collections::BTreeMap;

/// Texts by name.
///
/// As files they lie in the folders of their names: a file can't be made in a folder without files.
#[derive(Drop)]
pub(crate) struct Texts {
    alloc: Global,
    by_name: BTreeMap<String, Vec<u8>>,
    /// Whether memory was refused.
    pub(crate) is_refused: bool,
}

impl Texts {
    /// No texts.
    pub(crate) fn new(alloc: Global) -> Texts {
        Texts {
            alloc,
            by_name: BTreeMap::new(alloc),
            is_refused: false,
        }
    }

    /// Adds a text, or replaces the one of the same name.
    fn insert(&mut self, name: &str, text: &[u8]) -> Result<(), AllocError> {
        let name = String::from_str(self.alloc, name)?;
        let text = Vec::from_slice(self.alloc, text)?;
        self.by_name.insert(name, text)?;
        Ok(())
    }

    /// The same, where a refusal of memory is noted.
    pub(crate) fn put(&mut self, name: &str, text: &[u8]) {
        if self.insert(name, text).is_err() {
            self.is_refused = true;
        }
    }

    /// Adds a text that was made, or notes that it was refused.
    pub(crate) fn put_made(&mut self, name: &str, made: Result<Vec<u8>, AllocError>) {
        match made {
            Ok(text) => self.put(name, &text),
            Err(_) => self.is_refused = true,
        }
    }

    /// Adds a text, with this word before its name.
    pub(crate) fn put_below(&mut self, word: &str, name: &str, text: &[u8]) {
        match format!(in self.alloc; "{word} {name}") {
            Ok(name) => self.put(name.as_str(), text),
            Err(_) => self.is_refused = true,
        }
    }

    /// Adds all texts of others, with this word before their names.
    pub(crate) fn put_all(&mut self, word: &str, others: &Texts) {
        for (name, text) in others.by_name.iter() {
            self.put_below(word, name.as_str(), text.as_slice());
        }
    }

    /// Whether there are none.
    pub(crate) fn is_empty(&self) -> bool {
        self.by_name.is_empty()
    }

    /// The text of that name, or an empty one.
    pub(crate) fn text(&self, name: &str) -> &[u8] {
        match self.by_name.get(name) {
            Some(text) => text.as_slice(),
            None => &[],
        }
    }

    /// Writes each text that isn't among the others, with its name.
    pub(crate) fn write_others(&self, others: &Texts, out: &mut Text) {
        for (name, text) in self.by_name.iter() {
            let is_held = match others.by_name.get(name.as_str()) {
                Some(held) => held.as_slice() == text.as_slice(),
                None => false,
            };
            if !is_held {
                out.push(b"-- ");
                out.push(name.as_bytes());
                out.push(b" --\n");
                out.push(text.as_slice());
            }
        }
    }

    /// Whether a file of this name can be made.
    fn has_folder_of(&self, name: &str) -> bool {
        let Some((folder, _)) = name.rsplit_once('/') else {
            return true;
        };
        for other in self.by_name.keys() {
            if let Some(within) = other.as_str().strip_prefix(folder) {
                if within.starts_with('/') {
                    return true;
                }
            }
        }
        false
    }
}

impl Named for Texts {
    fn read(&mut self, alloc: Global, name: &str, most: usize) -> Result<Vec<u8>, NamedFault> {
        let Some(text) = self.by_name.get(name) else {
            return Err(NamedFault::Io);
        };
        let length = text.len().min(most);
        match Vec::from_slice(alloc, &text[..length]) {
            Ok(bytes) => Ok(bytes),
            Err(_) => Err(NamedFault::Memory),
        }
    }

    fn write(&mut self, name: &str, bytes: &[u8]) -> Result<(), NamedFault> {
        if !self.has_folder_of(name) {
            return Err(NamedFault::Io);
        }
        match self.insert(name, bytes) {
            Ok(()) => Ok(()),
            Err(_) => Err(NamedFault::Memory),
        }
    }
}

/// Files that stay as they are: what is written to them is forgotten.
#[derive(Drop)]
pub(crate) struct Unchanged<'a> {
    files: &'a mut Texts,
    /// Whether a file was written.
    pub(crate) is_written: bool,
}

impl<'a> Unchanged<'a> {
    /// These files, of which none was written.
    pub(crate) fn new(files: &'a mut Texts) -> Unchanged<'a> {
        Unchanged {
            files,
            is_written: false,
        }
    }
}

impl Named for Unchanged<'_> {
    fn read(&mut self, alloc: Global, name: &str, most: usize) -> Result<Vec<u8>, NamedFault> {
        self.files.read(alloc, name, most)
    }

    fn write(&mut self, name: &str, _bytes: &[u8]) -> Result<(), NamedFault> {
        if !self.files.has_folder_of(name) {
            return Err(NamedFault::Io);
        }
        self.is_written = true;
        Ok(())
    }
}
