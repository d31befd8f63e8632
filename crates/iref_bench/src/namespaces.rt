//! Namespaces of prefix tables. Those of a table are alike, and many are of one length.
use crate::digits::{put_digit, put_four_digits, put_hex_digits, put_two_digits};
use iref_examples::chosen::chosen;
use std::alloc::AllocError;

/// Which namespaces a table has. They have numbers from 0 on.
#[derive(Clone, Copy)]
pub enum Family {
    /// The Wikipedias of languages whose codes have two letters.
    Wikipedias,
    /// URNs of UUIDs.
    Uuids,
    /// Statistics of a year, each as a fragment.
    Years,
    /// Statistics of a month, each as a directory.
    Months,
    /// Vocabularies with a number of four digits.
    Vocabularies,
    /// Versions of a vocabulary, of three lengths.
    Versions,
    /// Vocabularies of the web, by their usual labels.
    Web,
    /// Ontologies of the OBO Foundry.
    Ontologies,
    /// Directories of a catalogue, of three lengths.
    Catalogue,
    /// Directories, each within the one before it.
    Nested,
}

static LANGUAGES: [&str; 40] = [
    "en", "de", "fr", "es", "it", "pt", "ru", "ja", "zh", "nl", "pl", "sv", "uk", "vi", "ar", "fa",
    "ca", "cs", "fi", "hu", "ko", "no", "ro", "tr", "id", "da", "he", "bg", "sr", "hr", "el", "sk",
    "lt", "sl", "et", "eu", "gl", "hi", "th", "ka",
];

static ONTOLOGIES: [&str; 40] = [
    "GO",
    "CHEBI",
    "UBERON",
    "CL",
    "HP",
    "MP",
    "DOID",
    "MONDO",
    "NCIT",
    "OBI",
    "BFO",
    "RO",
    "IAO",
    "PATO",
    "SO",
    "PR",
    "ECO",
    "ENVO",
    "NCBITaxon",
    "FOODON",
    "UO",
    "BTO",
    "MA",
    "FMA",
    "ZFA",
    "FBbt",
    "WBbt",
    "PO",
    "TO",
    "OGMS",
    "CLO",
    "VO",
    "APO",
    "OMIT",
    "MS",
    "PW",
    "SYMP",
    "TRANS",
    "XAO",
    "GAZ",
];

static WEB: [(&str, &str); 24] = [
    ("rdf", "http://www.w3.org/1999/02/22-rdf-syntax-ns#"),
    ("rdfs", "http://www.w3.org/2000/01/rdf-schema#"),
    ("owl", "http://www.w3.org/2002/07/owl#"),
    ("xsd", "http://www.w3.org/2001/XMLSchema#"),
    ("foaf", "http://xmlns.com/foaf/0.1/"),
    ("dc", "http://purl.org/dc/elements/1.1/"),
    ("dcterms", "http://purl.org/dc/terms/"),
    ("skos", "http://www.w3.org/2004/02/skos/core#"),
    ("schema", "https://schema.org/"),
    ("prov", "http://www.w3.org/ns/prov#"),
    ("dcat", "http://www.w3.org/ns/dcat#"),
    ("void", "http://rdfs.org/ns/void#"),
    ("vcard", "http://www.w3.org/2006/vcard/ns#"),
    ("geo", "http://www.w3.org/2003/01/geo/wgs84_pos#"),
    ("sh", "http://www.w3.org/ns/shacl#"),
    ("org", "http://www.w3.org/ns/org#"),
    ("qb", "http://purl.org/linked-data/cube#"),
    ("time", "http://www.w3.org/2006/time#"),
    ("dbo", "http://dbpedia.org/ontology/"),
    ("wd", "http://www.wikidata.org/entity/"),
    ("wdt", "http://www.wikidata.org/prop/direct/"),
    ("sosa", "http://www.w3.org/ns/sosa/"),
    ("sioc", "http://rdfs.org/sioc/ns#"),
    ("gr", "http://purl.org/goodrelations/v1#"),
];

static DIRECTORIES: [&str; 16] = [
    "a/", "b/", "c/", "d/", "e/", "f/", "g/", "h/", "i/", "j/", "k/", "l/", "m/", "n/", "o/", "p/",
];

// The code of a language.
fn language(number: u64) -> &'static str {
    chosen(&LANGUAGES, number)
}

// The name of an ontology.
fn ontology(number: u64) -> &'static str {
    chosen(&ONTOLOGIES, number)
}

// The label of a vocabulary of the web, and its IRI.
fn vocabulary(number: u64) -> (&'static str, &'static str) {
    chosen(&WEB, number)
}

// Appends a UUID. The first 65,536 numbers have UUIDs that differ, in the first four digits.
fn put_uuid(text: &mut String, number: u64) -> Result<(), AllocError> {
    let mixed = number.wrapping_mul(0x9e37_79b9_7f4a_7c15);
    put_hex_digits(text, number.wrapping_mul(40_503), 4)?;
    put_hex_digits(text, mixed, 4)?;
    text.push_str("-")?;
    put_hex_digits(text, mixed >> 16, 4)?;
    text.push_str("-4")?;
    put_hex_digits(text, mixed >> 32, 3)?;
    text.push_str("-a")?;
    put_hex_digits(text, mixed >> 48, 3)?;
    text.push_str("-")?;
    put_hex_digits(text, mixed, 12)
}

// Appends the directory of a month. They are counted from January 2025.
fn put_month(text: &mut String, number: u64) -> Result<(), AllocError> {
    put_four_digits(text, number / 12 + 2025)?;
    text.push_str("/")?;
    put_two_digits(text, number % 12 + 1)?;
    text.push_str("/")
}

// Appends the directory of a version, such as `2.4/`, `1.10/` or `1.8.1/`.
fn put_version(text: &mut String, number: u64) -> Result<(), AllocError> {
    let minor = number % 6 * 2;
    put_digit(text, number / 6 + 1)?;
    text.push_str(if minor < 10 { "." } else { ".1" })?;
    put_digit(text, minor)?;
    text.push_str(if number % 5 == 4 { ".1/" } else { "/" })
}

// Appends a directory of the catalogue.
fn put_item(text: &mut String, number: u64) -> Result<(), AllocError> {
    text.push_str(match number % 3 {
        0 => "maps/",
        1 => "letters/",
        _ => "photographs/",
    })?;
    put_four_digits(text, number)?;
    text.push_str("/")
}

// Appends directories, each within the one before it.
fn put_nested(text: &mut String, number: u64) -> Result<(), AllocError> {
    for directory in DIRECTORIES.iter().take((number % 17) as usize) {
        text.push_str(directory)?;
    }
    Ok(())
}

impl Family {
    // What all namespaces begin with, and what they end with.
    fn ends(self) -> (&'static str, &'static str) {
        match self {
            Family::Wikipedias => ("http://", ".wikipedia.org/wiki/"),
            Family::Uuids => ("urn:uuid:", ":"),
            Family::Years => ("http://example.org/statistics/", "#"),
            Family::Months => ("https://stats.example.org/", ""),
            Family::Vocabularies => ("http://example.org/vocab/", "#"),
            Family::Versions => ("http://example.org/ns/", ""),
            Family::Web => ("", ""),
            Family::Ontologies => ("http://purl.obolibrary.org/obo/", "_"),
            Family::Catalogue => ("http://data.example.org/", ""),
            Family::Nested => ("http://h/", ""),
        }
    }

    /// Appends the IRI of a namespace.
    pub fn put_namespace(self, text: &mut String, number: u64) -> Result<(), AllocError> {
        let (before, after) = self.ends();
        text.push_str(before)?;
        match self {
            Family::Wikipedias => text.push_str(language(number))?,
            Family::Uuids => put_uuid(text, number)?,
            Family::Years => put_four_digits(text, number % 100 + 1995)?,
            Family::Months => put_month(text, number)?,
            Family::Vocabularies => put_four_digits(text, number % 1000 + 1)?,
            Family::Versions => put_version(text, number)?,
            Family::Web => text.push_str(vocabulary(number).1)?,
            Family::Ontologies => text.push_str(ontology(number))?,
            Family::Catalogue => put_item(text, number)?,
            Family::Nested => put_nested(text, number)?,
        }
        text.push_str(after)
    }

    /// Appends the label of a namespace.
    pub fn put_label(self, text: &mut String, number: u64) -> Result<(), AllocError> {
        match self {
            Family::Wikipedias => text.push_str(language(number)),
            Family::Web => text.push_str(vocabulary(number).0),
            Family::Ontologies => text.push_str(ontology(number)),
            _ => {
                text.push_str("ns")?;
                put_four_digits(text, number)
            }
        }
    }
}
