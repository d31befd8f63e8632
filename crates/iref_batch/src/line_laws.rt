//! Laws of the answers to lines: each is the contract of a function that does nothing.

ghost use Rattle.std.specs.Prelude.{◌≡◌, ◌≢◌, [], ◌∷◌, ◌++◌, List, true};
ghost use Rattle.iref.specs.{Characters.{uri_chars, iri_chars}, Rules.{Text, InUtf8}, Grammar.{IsUriReference}};
ghost use Rattle.iref.specs.{Reference.{read_reference}, Key.{are_alike}, PrefixTable.{PrefixEntry}};
ghost use Rattle.iref_batch.specs.Lines.{Verbs, ToUri, Compact, Expand, Answered, InvalidText};
ghost use Rattle.iref_batch.specs.Lines.{equals_sign, is_valid, newline, answer_to, answer, output};

use iref::chars::CharSet;

/// A line whose texts are those of URIs has the same answer over every set of characters.
pub fn uri_lines_are_answered_equally<S: CharSet>()
    ensures { (verbs : Verbs) (line : Text) → answer uri_chars verbs line ≢ InvalidText
        → answer S.tests verbs line ≡ answer uri_chars verbs line }
{}

/// What `to-uri` answers is a URI reference, and equal to the reference.
pub fn to_uri_answers_an_equal_uri_reference()
    ensures rule { (r text : Text) → is_valid iri_chars (ToUri r) ≡ true
        → answer_to (ToUri r) ≡ Answered text → InUtf8 (IsUriReference uri_chars) text }
    ensures equal { (r text : Text) → is_valid iri_chars (ToUri r) ≡ true
        → answer_to (ToUri r) ≡ Answered text
        → are_alike (read_reference r) (read_reference text) ≡ true }
{}

/// What `compact` answers, `expand` answers with the IRI, where the entries are the same.
pub fn expand_undoes_compact()
    ensures { (iri text : Text) (entries : List PrefixEntry)
        → is_valid iri_chars (Compact iri entries) ≡ true
        → answer_to (Compact iri entries) ≡ Answered (equals_sign ∷ text)
        → answer_to (Expand text entries) ≡ Answered iri }
{}

/// A file that is cut where a line ends is answered in pieces: the outputs of the pieces, one after
/// the other, are the output of the file.
pub fn pieces_cut_at_line_ends_have_the_output_of_the_whole<S: CharSet>()
    ensures { (verbs : Verbs) (first second : Text)
        → output S.tests verbs ((first ++ newline ∷ []) ++ second)
        ≡ output S.tests verbs (first ++ newline ∷ []) ++ output S.tests verbs second }
{}
