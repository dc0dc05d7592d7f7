// What the program says of itself.
pub(crate) const HELP: &str = "\
lustrehem: records of memory cards, replicated between service stations

  lustrehem                              the built-in task: a day at three stations
  lustrehem run SCRIPT [IMAGE]           runs a script of calls (- is standard input);
                                         IMAGE is a card image that it may use as a mailbox
  lustrehem inspect IMAGE [card or loan] says what is on a card image
  lustrehem --help                       this text

A script has one call a line; # begins a comment. It begins with: record card, stations 3, mailbox pages 4096.

  record card | loan                     chooses the record kind
  stations N                             the number of stations
  mailbox STORE                          the mailbox: words N, pages BYTES or image
  mailbox overflow STORE STORE           an overflow of two; each of these makes a fresh cluster
  report S WHAT N                        card: erased, taken, returned, retired, firmware; loan: lent, marked
  send delta S, send full S              station S sends what it has not sent, or all
  put WORD ..                            words that a link delivers, in hexadecimal
  fetch S K                              station S fetches message K
  discard K, count, fits N, read K       the mailbox
  show S, compare S T, image             what is held, how clocks stand, the bytes of the pages

Each call prints what was asked and its answer, or its refusal with number, name, place and layer.
Status 1: wrong arguments, a file that cannot be used, a line that was not understood, an image or a message in it that is refused.";
