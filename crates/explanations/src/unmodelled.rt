use ios_lex::Word;

/// The likeliest cure where these words are not modelled.
pub(crate) fn help_for(words: &Word) -> &'static str {
    if words.is("object-group") {
        "groups are not read: write an entry for each address and port that the group stands for"
    } else if words.is("time-range") || words.is("fragments") || words.is("option") {
        "leave the entry out in a copy of the file, if the question is not about such packets"
    } else if words.is("router") {
        "routes that routers tell each other are not read: take a copy of the file without this block"
    } else {
        "a copy of the file without this line is read; its answers are then about less than the router"
    }
}
