//! What exit statuses say.
ghost use Rattle.census_command.specs.Statuses.{StatusesSay};

/// What the exit status says of words that ask for a census, a later generation or a drawing that ends at the first thing that
/// goes wrong, or for nothing that can be done. After 0 what was asked for was done, and nothing was reported but what is said
/// where faults are explained. After 1 the input is refused, and nothing was written. After 2 the words are refused, and nothing
/// was read or written. After 3 memory was refused, and nothing was written or a prefix of a report. After 4 a stream has failed
/// or a folder or file can't be read, and a prefix was written. The status is always 4 where a stream fails, and after a failed
/// read nothing was written.
pub fn statuses_say_what_happened()
    ensures { StatusesSay }
{}
