//! What `filing --help` says of how to begin, `--help` of each command of what it reads and writes, and `filing words` of refusals.
//! It is shown as it stands, at most 80 columns wide; no code reads it.

/// What `filing --help` says apart from the commands.
pub(crate) const BEGINNING: &str = r#"A script goes in, and a reply comes out for each of its lines:
  filing run < script.jsonl > replies.jsonl
  filing run --numeric concepts.txt --history history.jsonl < script.jsonl
  filing check --numeric concepts.txt history.jsonl
  filing show --numeric concepts.txt --at 4 history.jsonl r1
  filing diff --numeric concepts.txt history.jsonl 3 4
  filing log --numeric concepts.txt history.jsonl
  filing inspect --numeric concepts.txt report.json

With a journal, what is loaded and committed is kept from run to run:
  filing load --numeric concepts.txt --journal office.jsonl r1=report.json
  filing run --journal office.jsonl < script.jsonl
  filing verify office.jsonl
  filing seal office.jsonl

`filing run --help` has every line by an example, `filing words` every word by
which a line is refused.

The status is 0 where the script was read to its end, also where lines were
refused; 1 after a fault in reading or writing; 2 where the words or the numeric
table are wrong; 3 where memory ran out; 4 where a history or a journal departs
or is damaged, a seal is not met, or a report that is loaded or inspected is
refused; 5 where `--strict` was given and a line was malformed or out of
place."#;

/// Every line by an example, and how reports and replies go in and out.
pub(crate) const LINES: &str =
    r#"Each line of the script is a JSON array and gets one reply line, in the same
order. Blank lines get none. r1 and f1 are the names of a report and of a fact,
s1 and v1 are names that you give to sessions.

A report goes in, and comes out as it is now:
  ["load","r1",REPORT]        REPORT is an object in xBRL-JSON 1.0, or a JSON
                              string that holds the text of one
  ["export","r1"]

A session opens at the current version. Any number may be open at once:
  ["open","v1","review"]      reads that version, and goes on reading it,
                              whatever is committed meanwhile
  ["open","s1","amend"]       reads that version with its own changes laid over

It reads:
  ["get","s1","r1","f1"]      the fact of an identifier
  ["cell","s1","r1",{"concept":"ex:Name"}]
                              the facts with exactly these dimensions: class,
                              identifiers
  ["page","s1","r1","ex:Name",true,null,100]
                              the first 100 identifiers of a concept, whatever
                              the period
  ["page","s1","r1","ex:Name","2024","f7",100]
                              of the period "2024" (null: of none), those after
                              f7 (null: all), at most 1000. The reply ends in
                              whether there are more
  ["declared","s1","r1"]      the duplicates that the report allows

It stages, where it was opened to amend, and nobody else sees it:
  ["add","s1","r1","f1",{"value":"Acme","dimensions":{"concept":"ex:Name"}}]
  ["remove","s1","r1","f1"]   to change a fact, remove it and add it
  ["declare","s1","r1","none"]
                              or complete, consistent, all

It ends, and its name is free:
  ["commit","s1"]             all that it staged becomes the next version, or
                              nothing does
  ["close","s1"]              nothing is left of it

A commit is answered by one of
  ["committed",4]             version 4 is the current one
  ["conflict",3,["id","r1","f1"]]
                              the commit or load numbered 3 touched what the
                              session read. Open it again, read anew, and commit
  ["disallowed","r1","inconsistent",["f1","f2"]]
                              these facts would be duplicates that r1 does not
                              allow
  ["closed"]                  to a review

Other refusals are a word: `filing words` has each.

A report's file goes into a journal by `filing load`:
  filing load --numeric concepts.txt --journal office.jsonl r1=report.json

A script runs, and replies are picked out again, by jq:
  filing run --numeric concepts.txt < script.jsonl > replies.jsonl
  filing run --history history.jsonl < script.jsonl > replies.jsonl
                              and what `filing check` judges
  jq -c 'select(.[0] == "conflict" or .[0] == "disallowed")' replies.jsonl
  jq -r 'select(.[0] == "page") | .[1][]' replies.jsonl
  jq 'select(.[0] == "report") | .[1]' replies.jsonl
  grep '[^[:space:]]' script.jsonl | paste -d '\n' - replies.jsonl
                              each line with its reply below it

Without --numeric no concept is numeric, and a fact with a unit is refused as
misplaced. It may be given several times: a concept is numeric where one of the
files has it. - is standard input, where that is not the script.

A journal is a file from which a run goes on, and in which it keeps its steps.
The reply to a load or a commit that passed is written once it is in the file,
on the disk; with --every-reply so is every reply. Where the run was cut short,
the file has at least what was answered. One run at a time has it open. `filing
verify`, `history`, `seal`, `show`, `diff` and `log` read it also while a run
writes it, up to the last whole batch.

A journal is a file of its own kind, and stands alone:
  {"journal":1,"made":TIME,"program":VERSION}
                              the first line
  {"table":["URI NAME",..]}   the numeric table
  [1,["open","amend"],["opened"]]
                              then batches of entries, which are those of a
                              history
  {"batch":1,"entries":1,"time":TIME,"opened":{..},"sha256":HEX}
                              each batch ends with a mark: its number, how many
                              entries it has, when it was put, the names of the
                              sessions that it opened, and a SHA-256 over all
                              that comes before

A new journal is made only where nothing is at its path. It has the table that
--numeric gives then. Later --numeric may be left out: where it differs, it is
refused, with status 2. `filing verify` judges a journal, and `filing history`
writes out its history.

To make a journal of a history:
  filing run --numeric concepts.txt --journal new --from old < /dev/null
An old journal, which has no such first line and no marks, is a history.

To go on from a history, or from a journal:
  filing run --from old.jsonl --history new.jsonl < script.jsonl
which leaves old.jsonl as it is, and writes the whole history to new.jsonl.

The file of --history grows beside its place while the script runs, and takes it
once the script has ended without fault. A file that is there is replaced, with
its rights, and a link is followed. A path that will not do is a warning before
the script is read, and a fault at the end.

With --explain, and on a terminal always, standard error has a reason for each
line that was refused, how many were, and which sessions were never ended. With
--strict the status is 5 where a reply is bad-line, bad-report, bad-fact,
no-session, no-report, name-in-use or read-only."#;

/// What `filing load --help` says of reports that are loaded.
pub(crate) const LOADS: &str =
    r#"Each report is a name and the file of a report in xBRL-JSON 1.0, - for standard
input:
  filing load --numeric concepts.txt --journal office.jsonl r1=a.json r2=b.json
  unzip -p r3.zip r3.json | filing load --journal office.jsonl r3=-

A path without = is loaded under the name of its file without the ending. Of a
folder all files are loaded so, in byte order, but for those whose name begins
with a dot:
  filing load --numeric concepts.txt --journal office.jsonl reports

The whole text of a file is the report of one load line, byte for byte. Its
reply is written once the report is in the journal, on the disk:
  ["loaded",1]
  ["bad-report","bad-fact","f1","misplaced"]

Standard error has the reasons of each refusal, after the path of its file, and
on a terminal how many reports were read.

The journal is one of `filing run --help`, and is made where nothing is at its
path. It has the numeric table with which it was made: --numeric may be left out
then. The status is 4 where a report was refused: the others are loaded all the
same. All files are read first: where one cannot be read, or is not UTF-8,
nothing is loaded, and the status is 1."#;

/// What `filing check --help` says of histories and verdicts.
pub(crate) const VERDICTS: &str =
    r#"A history has a line for each step of a script, with its session's number and
its reply:
  [null,["load","r1",REPORT],["loaded",1]]
  [1,["open","amend"],["opened"]]
  [1,["get","r1","f1"],["none"]]

It is lawful where each reply is the one that the steps before it admit. The
verdict is one line:
  ["lawful"]         status 0
  ["departs",2]      status 4: it departs at the third line, blank lines aside.
                     Another reply is due there, or its session is not open, or
                     the line is no step

With --explain, and on a terminal always, standard error has the number of the
entries and the version that they make, or why the history departs.

The numeric table has to be that of the run. The spaces in a line and the order
of members are free. A journal is no history: `filing verify` judges it."#;

/// What `filing show --help` says of versions.
pub(crate) const VERSIONS: &str =
    r#"Each load and commit that is accepted makes a version: the numbers are those of
["loaded",1] and ["committed",2], and version 0 is empty. A report of a version
comes out in one line, as ["export","r1"] was answered when that version was the
current one:
  filing show --at 4 history.jsonl r1
  filing show history.jsonl r1 | jq '.[1]'
                              the last version, and the report alone

Without a report there is a line for the version, and one for each of its
reports in byte order of names: how many facts it has, and the duplicates that
it allows:
  ["version",4]
  ["report","r1",120,"consistent"]

The history is judged first: where it departs, nothing is shown, and the status
is 4. The numeric table has to be that of the run. The status is 2 where the
history has no such version, or the version no such report.

A journal is read as its history, by the table in it, also while a run writes
it: up to the last whole batch."#;

/// What `filing diff --help` says of differences.
pub(crate) const DIFFERENCES: &str =
    r#"What is laid over version FROM to make version TO comes as JSON lines, in byte
order of the names of reports, and of identifiers:
  ["report","r2"]             r2 is there now: `filing show` shows it
  ["no-report","r2"]          r2 is not there any more, where TO is before FROM
  ["declared","r1","none","all"]
                              the duplicates that r1 allows, before and now
  ["added","r1","f1",FACT]
  ["removed","r1","f1",FACT]
  ["changed","r1","f1",FACT,FACT]
                              the fact before, and now

Nothing is written where nothing differs:
  filing diff history.jsonl 3 4
  filing diff history.jsonl 3 4 r1
                              of one report alone

The history is judged first: where it departs, nothing is shown, and the status
is 4. The numeric table has to be that of the run. The status is 2 where the
history has no such version, or neither version has that report.

A journal is read as its history, by the table in it, also while a run writes
it: up to the last whole batch."#;

/// What `filing log --help` says of sessions.
pub(crate) const SESSIONS: &str =
    r#"Each session and each load has a line, in the order of openings and loads:
  [null,"load","r1",["loaded",4],"2026-12-01T12:00:00.123Z"]
  [1,"amend",4,["committed",6],2,null,"anna","2026-12-01T12:00:07.009Z"]
  [2,"amend",4,["conflict",6,["id","r1","f1"]],1,1,null,null]
  [3,"review",6,null,0,null,null,null]
a session's number, what it was opened for, the version at its opening, the
reply by which it ended (null: it did not), how many of its changes were staged,
of a conflict the session whose commit touched what it had read (null: a load
did), its name, and when it ended or, where it did not, was opened. Names and
times are those of a journal; null: there is none.

With --fact each version in which a fact is another has a line:
  filing log --fact journal.jsonl r1 f1
  [4,null,null,"2026-12-01T12:00:00.123Z",null,{"value":"Acme","dimensions":..}]
  [6,1,"anna","2026-12-01T12:00:07.009Z",{"value":"Acme","dimensions":..},null]
its number, the session whose commit made it (null: a load did), the name and
the time, and the fact before and after (null: it is not there).

With --svg the sessions come as a picture: versions along, a bar for each
session from its opening to its end, and an arrow from a commit to each session
that it made conflict. A picture has at most 200 sessions; --first gives the
number of the first one:
  filing log --svg history.jsonl > sessions.svg
  filing log --svg --first 201 history.jsonl > more.svg

The history is judged first: where it departs, nothing is shown, and the status
is 4. The numeric table has to be that of the run.

A journal is read as its history, by the table in it, also while a run writes
it: up to the last whole batch."#;

/// What `filing verify --help` says of journals and verdicts.
pub(crate) const JOURNAL_VERDICTS: &str =
    r#"A journal is lawful where its marks are those of the lines before them, and its
history is lawful by the numeric table in it. `filing run --help` says what a
journal has, and `filing check --help` which histories are lawful. The verdict
is one line:
  ["lawful"]         status 0
  ["departs",2]      status 4: the history departs at the third entry
  ["damaged",7]      status 4: the file is damaged at its seventh line. Where an
                     entry was changed, that is the mark of its batch

A journal is judged up to the last whole batch, also while a run writes it.

With the 64 digits of `filing seal` the status is 4 also where the journal does
not go on from what was sealed. Standard error says so:
  filing verify --seal HEX office.jsonl

With --explain, and on a terminal always, standard error has why the history
departs."#;

/// What `filing history --help` says of histories that journals keep.
pub(crate) const KEPT_HISTORIES: &str =
    r#"The entries of a journal come out as a history, as they are in it:
  filing history office.jsonl > history.jsonl
  filing check --numeric concepts.txt history.jsonl

They come up to the last whole batch, also while a run writes the journal. The
check wants the numeric table that the journal has. Where the journal is
damaged, nothing is written, and the status is 4."#;

/// What `filing seal --help` says of seals.
pub(crate) const SEALS: &str = r#"The seal of a journal is one line:
  ["sealed",3,40,12,HEX]      how many batches and entries the journal has, the
                              version that they make, and the 64 digits of its
                              last mark

Keep the digits, and keep them elsewhere. With them `filing verify` notices
every later change of what is in the journal now, and the journal still grows:
  filing seal office.jsonl | jq -r '.[4]' > office.seal
  filing verify --seal "$(cat office.seal)" office.jsonl

What is sealed goes up to the last whole batch, also while a run writes the
journal. The journal is judged first: where it departs or is damaged, nothing is
written, and the status is 4."#;

/// What `filing repair --help` says of batches that are kept.
pub(crate) const REPAIRS: &str =
    r#"A run opens no journal that is damaged. It says at which line that is, and the
number of the last whole batch before it. To keep the batches up to that one:
  filing repair --keep 12 office.jsonl

What is behind them is put into a file beside the journal, and then cut off. The
file is office.jsonl.cut-1, or has the next number that is free. Standard error
has its name and its size. No run may have the journal open meanwhile.

The number is that in the mark of a batch, as in {"batch":12,..}. Batch 0 has no
entries: each new journal begins with it. The status is 2 where there is no
batch of that number, and 4 where what is to be kept is damaged itself. Nothing
is changed then."#;

/// What `filing inspect --help` says of inspections.
pub(crate) const INSPECTIONS: &str =
    r#"Each report is a file in xBRL-JSON 1.0, or - for standard input. All that a load
would refuse comes as JSON lines, and not the first of it alone:
  ["fault","a.json","f-7","wrong-shape","\"value\" is the number 5; .."]
                              the fact (null: the report itself), the word by
                              which `filing run` refuses it, and why
  ["cell","a.json","inconsistent",{"concept":"ex:Name"},["f1","f2"],false]
                              facts with the same dimensions: their class, and
                              whether the report allows such duplicates
  ["inspected","a.json",3000,200,50,12,0]
                              at the end of each: facts, cells of more than one,
                              faults, cells that are not allowed, and warnings

What a load would take, though it may be meant otherwise, is a warning:
  ["warning","a.json","not-read","f-7","decimls"]
                              why, the fact (null: none), and the name
  name-twice                  an object has the name twice: the last counts
  not-read                    no reading looks at this member
  decimals-beside-null        the decimals are dropped
  not-in-table                a concept with a unit is not in the numeric table
  other-namespace             a number has the local name of a concept of the
                              table, which no fact has, in another namespace

With --text the same comes as lines for people.

`--as none` judges duplicates as if the report allowed none; so do `complete`,
`consistent` and `all`.

The status is 0 where `filing run` would answer ["loaded",..] to each report, as
if it declared the word of --as where that is given; 4 where it would refuse
one; and 1 where a file could not be read: the others are inspected all the
same."#;

/// What `filing threads --help` says of several scripts.
pub(crate) const THREADS: &str =
    r#"Each script has a thread of its own, and all use one repository. Lines and
replies are those of `filing run --help`, but
  - names of sessions are each script's own: two scripts may both open "s1"
  - ["export","r1"] is a bad line
  - a session opened to review sees at least what its own script has loaded and
    committed before

Which script's step comes first is not said. The replies come script by script,
in the order of the files:
  filing threads --numeric concepts.txt load.jsonl anna.jsonl ben.jsonl

With --explain, and on a terminal always, standard error has a reason for each
line that was refused, script by script; --strict is that of `filing run`.

With --journal the scripts go on from a journal, and what they made is in it
before the first reply is written. With --from they go on from a history or a
journal, which stays as it is, and with --history the whole history is written
to a file once they have ended."#;

/// Every word by which a line is refused.
pub const REFUSALS: &str = r#"A line of a script is refused by
  bad-line               no JSON, or none of the lines of `filing run --help`
  bad-report             load: the report is; a word of the next list follows
  bad-fact               add, cell: it is; a word of the last list follows
  name-in-use            open: an open session has this name
  no-session             no open session has this name
  no-report              there is no report of this name
  none                   remove: no fact has this identifier
  read-only              a session that is to review changes nothing
  taken                  add: a fact has this identifier
  name-taken             load: a report has this name
  conflict               commit: what the session read was touched since
  disallowed             load, commit: duplicates that the report disallows

A report is refused by
  not-json               its text is no JSON
  wrong-shape            a part of it is no object, or a prefix names no text
  wrong-document-type    not https://xbrl.org/2021/xbrl-json
  bad-policy             xbrl:allowedDuplicates is none of the four words
  alias-twice            two prefixes have one URI
  not-whole              a number in documentInfo is not whole
  bad-fact               a fact is: its identifier and a word of the last list

A fact, or the dimensions of a cell, are refused by
  wrong-shape            value, dimensions, decimals or links is of a wrong kind
  not-whole              decimals or a number in links is not whole
  null-core              a dimension that is no taxonomy's is null
  no-concept             there is no concept
  too-long               a name or a value has more than 4096 bytes
  unbound-prefix         a name has no prefix that the report binds
  misplaced              unit or decimals at a fact that is not numeric
  not-a-number           the value of a numeric fact is no decimal numeral
  too-large              more than 20 digits before the point, or 15 behind it
  decimals-out-of-range  decimals are not from -20 to 15"#;
