//! URIs that the program makes: pages of sites, in several spellings, with names that begin alike and
//! bytes from 0 to 255.
use iref::Memory;
use iref::uri::UriBuf;
use std::alloc::Global;

const SITES: &[&str] = &[
    "http://h",
    "HTTP://h",
    "http://h:80",
    "http://u@h",
    "https://h",
    "http://hh",
    "urn:h",
    "ftp://[2001:db8::7]",
];

const FOLDERS: &[&str] = &[
    "",
    "/",
    "/docs",
    "/docsx",
    "/docs/",
    "/docs/a",
    "/x/../docs",
    "/%64ocs/b",
    "/docs//",
    "/d",
    "/d%00",
    "/d%01",
    "/d%7F",
    "/d%80",
    "/d%C3%A9cor",
    "/d%FF",
];

const PAGES: &[&str] = &[
    "",
    "/",
    "/index.html",
    "/a",
    "/a/",
    "/a/b",
    "/a%2Fb",
    "/%61",
    "/./a",
    "/a/../b",
    "?q",
    "?",
    "?q=%FF",
    "#f",
    "?q#f",
    "/%00",
    "/%7F",
    "/%80",
    "/%FF/%FF",
    "/%FE",
    "/a-very-long-name-that-goes-on-and-on-and-on-and-on/with/many/segments/in/it",
    "/1",
    "/10",
    "/2",
];

/// The URIs of all sites, folders and pages that make one.
pub fn uris(alloc: Global) -> Result<Vec<UriBuf>, Memory> {
    let mut uris = Vec::new(alloc);
    for site in SITES {
        for folder in FOLDERS {
            for page in PAGES {
                if let Ok(uri) = UriBuf::new(format!(in alloc; "{site}{folder}{page}")?) {
                    uris.push(uri)?;
                }
            }
        }
    }
    Ok(uris)
}
