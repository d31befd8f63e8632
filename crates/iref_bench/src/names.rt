//! Names that texts are made of.
use iref_examples::chosen::chosen;
use std::alloc::AllocError;

static WORDS: [&str; 64] = [
    "amber-", "birch-", "cedar-", "delta-", "ember-", "fjord-", "grove-", "heron-", "inlet-",
    "jetty-", "knoll-", "larch-", "mesa-", "north-", "otter-", "pine-", "quartz-", "reef-",
    "slate-", "tarn-", "umber-", "vale-", "willow-", "yarrow-", "zephyr-", "anchor-", "beacon-",
    "copper-", "dune-", "estuary-", "fern-", "granite-", "harbor-", "iris-", "juniper-", "kelp-",
    "lagoon-", "maple-", "nettle-", "oak-", "pebble-", "quill-", "raven-", "sedge-", "thistle-",
    "upland-", "violet-", "wharf-", "aspen-", "basalt-", "cliff-", "drift-", "elm-", "flint-",
    "gorse-", "hazel-", "island-", "jasmine-", "kestrel-", "lichen-", "marsh-", "nectar-",
    "orchid-", "poplar-",
];

static WIDE_WORDS: [&str; 32] = [
    "日本語_",
    "東京都_",
    "大阪_",
    "山手線_",
    "横浜市_",
    "歴史_",
    "文化_",
    "新幹線_",
    "川崎_",
    "北海道_",
    "富士山_",
    "京都府_",
    "Россия_",
    "Москва_",
    "История_",
    "Библиотека_",
    "Волга_",
    "Сибирь_",
    "Наука_",
    "Поэзия_",
    "Театр_",
    "Музыка_",
    "भारत_",
    "दिल्ली_",
    "हिन्दी_",
    "इतिहास_",
    "गंगा_",
    "मुंबई_",
    "विज्ञान_",
    "संगीत_",
    "कविता_",
    "हिमालय_",
];

// A word that a number determines.
fn word(number: u64) -> &'static str {
    chosen(&WORDS, number)
}

// A word beyond ASCII.
fn wide_word(number: u64) -> &'static str {
    chosen(&WIDE_WORDS, number)
}

/// Appends a name of three words, or of four from 262,144 on. The first 16,777,216 numbers have names
/// that differ.
pub fn put_name(text: &mut String, number: u64) -> Result<(), AllocError> {
    text.push_str(word(number))?;
    text.push_str(word(number / 64))?;
    text.push_str(word(number / 4096))?;
    if number >= 262_144 {
        text.push_str(word(number / 262_144))?;
    }
    Ok(())
}

/// Appends a directory of two words, and a name.
pub fn put_path(text: &mut String, number: u64) -> Result<(), AllocError> {
    text.push_str(word(number / 512))?;
    text.push_str("/")?;
    text.push_str(word(number / 8))?;
    text.push_str("/")?;
    put_name(text, number)
}

/// Appends a name of four words beyond ASCII. The first 1,048,576 numbers have names that differ.
pub fn put_wide_name(text: &mut String, number: u64) -> Result<(), AllocError> {
    text.push_str(wide_word(number))?;
    text.push_str(wide_word(number / 32))?;
    text.push_str(wide_word(number / 1024))?;
    text.push_str(wide_word(number / 32_768))
}
