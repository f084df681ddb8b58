//! `mdl_words`: a command line of one word.
use mdl_words::is_only_word;

#[test]
fn one_word_is_given(rt: HostRuntime) {
    assert!(rt; is_only_word(&["mdlsim", "--version"], "--version"));
    assert!(rt; !is_only_word(&["mdlsim", "--version", "lock"], "--version"));
}
