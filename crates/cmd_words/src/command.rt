ghost use Rattle.std.specs.Prelude.{◌≡◌, find, bytes_eq, option_copied};
ghost use Rattle.cmd_words.specs.Options.{layout_of};
ghost use Rattle.cmd_words.specs.Asked.{option_asked, id_asked, gpu_asked, flags_asked, root_asked, layout_asked, limit_asked, meta_asked, key_asked};

use crate::number::number_of_text;
use crate::option_list::{OptionList, OptionPair};
use crate::word::Word;
use cache_types::{Layout, TextList};

/// A command as words give it. What it asks for is told of any such value, also of one that no words give, and
/// takes no memory.
pub struct Command {
    /// The first word.
    pub word: Word,
    /// The options, in the order of the words.
    pub options: OptionList,
    /// The positional words, in their order.
    pub places: TextList,
}

impl Drop for Command {
    fn drop(self) {
        let Command {
            word: _,
            options: _options,
            places: _places,
        } = self;
    }
}

/// The layout of this name.
pub fn layout_of_text(text: &str) -> Option<Layout>
    ensures { result ≡ layout_of text.now }
{
    match text {
        "folder" => Some(Layout::Folder),
        "database" => Some(Layout::Database),
        "foz" => Some(Layout::Foz),
        _ => None,
    }
}

/// The first option of a name.
fn option_of<'a>(options: &'a [OptionPair], name: &str) -> Option<&'a OptionPair>
    ensures { option_copied result ≡ find (λ option. bytes_eq option.name name.now) options.now }
{
    options.iter().find(|option| option.name.as_str() == name)
}

impl Command {
    /// The value of an option, by its name without dashes.
    pub fn option(&self, name: &str) -> Option<&str>
        ensures { option_copied result ≡ option_asked self.now name.now }
    {
        match option_of(self.options.as_slice(), name) {
            Some(option) => Some(option.value.as_str()),
            None => None,
        }
    }

    /// The driver's id: `mesa` where none is given.
    pub fn id(&self) -> &str
        ensures { result.now ≡ id_asked self.now }
    {
        self.option("id").unwrap_or("mesa")
    }

    /// The GPU's name: `generic` where none is given.
    pub fn gpu(&self) -> &str
        ensures { result.now ≡ gpu_asked self.now }
    {
        self.option("gpu").unwrap_or("generic")
    }

    /// The driver's flags: 0 where none are given.
    pub fn flags(&self) -> u64
        ensures { result ≡ flags_asked self.now }
    {
        match self.option("flags") {
            Some(text) => number_of_text(text).unwrap_or(0),
            None => 0,
        }
    }

    /// The root folder that is given in place of that of the settings.
    pub fn root(&self) -> Option<&str>
        ensures { option_copied result ≡ root_asked self.now }
    {
        self.option("root")
    }

    /// The layout that is given in place of that of the settings.
    pub fn layout(&self) -> Option<Layout>
        ensures { result ≡ layout_asked self.now }
    {
        layout_of_text(self.option("layout")?)
    }

    /// The limit in bytes that is given in place of that of the settings.
    pub fn limit(&self) -> Option<u64>
        ensures { result ≡ limit_asked self.now }
    {
        number_of_text(self.option("limit")?)
    }

    /// The texts of keys that are given for the meta, with commas between them.
    pub fn meta(&self) -> Option<&str>
        ensures { option_copied result ≡ meta_asked self.now }
    {
        self.option("meta")
    }

    /// The first positional word: of `put`, `get`, `mark` and `has` the key.
    pub fn key(&self) -> Option<&str>
        ensures { option_copied result ≡ key_asked self.now }
    {
        match self.places.as_slice() {
            [key, ..] => Some(key.as_str()),
            [] => None,
        }
    }
}
