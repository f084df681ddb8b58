//! What stands around the parts of a page. The policy in its head names the script by its hash. `commands/view_pages.py` compares the two, and says
//! which hash belongs here after a change of the script.

/// What stands before the style.
pub const BEFORE_STYLE: &[u8] = b"<!DOCTYPE html>
<html lang='en'>
<head>
<meta charset='utf-8'>
<meta name='viewport' content='width=device-width, initial-scale=1'>
<meta http-equiv='Content-Security-Policy' content=\"default-src 'none'; base-uri 'none'; form-action 'none'; style-src 'unsafe-inline'; script-src 'sha256-rz/i5ERYVaVJaIKXEPt0ZbFbd0Xh8ugdFA/QqBRfh9s='\">
<title>Timeline of a script</title>
<style>
";

/// What stands between the style and the picture.
pub const BEFORE_PICTURE: &[u8] = b"</style>
</head>
<body>
<header>
<h1>Timeline of a script</h1>
<p id='keys' hidden>Point at a line of the script, or choose one with <kbd>&larr;</kbd> <kbd>&rarr;</kbd> <kbd>Page Up</kbd> <kbd>Page Down</kbd> <kbd>Home</kbd> <kbd>End</kbd>. A click or <kbd>Enter</kbd> keeps it, <kbd>Esc</kbd> lets it go.</p>
</header>
<div id='timeline' tabindex='0' autofocus role='group' aria-label='Lines of the script' aria-describedby='keys'>
";

/// What stands between the picture and the text of the script.
pub const BEFORE_SOURCE: &[u8] = b"</div>
<main tabindex='0' aria-label='Locks and waits'>
<h2 id='shown' aria-live='polite'></h2>
<div id='facts'>
<noscript><p>Without JavaScript this page has the picture and the script alone.</p></noscript>
</div>
<pre id='source'>
";

/// What stands between the text of the script and the data.
pub const BEFORE_DATA: &[u8] = b"</pre>
<details id='modes'>
<summary>Modes</summary>
<dl>
<dt>S</dt><dd>of a table: looking at its definition; of others: keeping all within as it is</dd>
<dt>SH</dt><dd>looking at a definition, with high priority</dd>
<dt>SR</dt><dd>reading rows</dd>
<dt>SW</dt><dd>writing rows</dd>
<dt>SWLP</dt><dd>writing rows with low priority</dd>
<dt>SU</dt><dd>preparing a change, while others read and write</dd>
<dt>SRO</dt><dd>reading rows while nobody writes</dd>
<dt>SNW</dt><dd>changing, while others read</dd>
<dt>SNRW</dt><dd>changing, while others may only look at the definition</dd>
<dt>IX</dt><dd>changing something within a schema, or within all</dd>
<dt>X</dt><dd>changing the definition; alone</dd>
</dl>
</details>
</main>
<script type='application/json' id='data'>
";

/// What stands between the data and the script.
pub const BEFORE_SCRIPT: &[u8] = b"
</script>
<script>";

/// What stands behind the script.
pub const END: &[u8] = b"</script>
</body>
</html>
";
