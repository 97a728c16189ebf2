//! The tables of the language of scripts, computed by the definitions.

ghost use Rattle.std.specs.Prelude.{◌≡◌, pos, negsuc, [], ◌∷◌, None, Some, codes};
ghost use Rattle.zf_cached.specs.Commands.{Command};
ghost use Rattle.zf_cached.specs.Grammar.{read_line};
ghost use Rattle.zf_cached.specs.Replies.{Reply, Refusal, reply_text};

/// Lines with one position, in one to four dimensions.
pub fn lines_with_a_position()
    ensures one { read_line 1 (codes "get 0") ≡ Some (Command.get (0 ∷ [])) }
    ensures two { read_line 2 (codes "get 3,40") ≡ Some (Command.get (3 ∷ 40 ∷ [])) }
    ensures three { read_line 3 (codes "vget 1,2,3") ≡ Some (Command.vget (1 ∷ 2 ∷ 3 ∷ [])) }
    ensures four { read_line 4 (codes "get 0,0,0,10") ≡ Some (Command.get (0 ∷ 0 ∷ 0 ∷ 10 ∷ [])) }
    ensures greatest { read_line 1 (codes "vget 18446744073709551615") ≡ Some (Command.vget (18446744073709551615 ∷ [])) }
{}

/// Lines with a value: positive, zero, negative, and the greatest of either sign.
pub fn lines_with_a_value()
    ensures set { read_line 2 (codes "set 5,7 -9") ≡ Some (Command.set (5 ∷ 7 ∷ []) (negsuc 8)) }
    ensures add { read_line 2 (codes "add 0,0 0") ≡ Some (Command.add (0 ∷ 0 ∷ []) (pos 0)) }
    ensures vset { read_line 1 (codes "vset 1 805306368") ≡ Some (Command.vset (1 ∷ []) (pos 805306368)) }
    ensures fill { read_line 3 (codes "fill -1") ≡ Some (Command.fill (negsuc 0)) }
    ensures greatest { read_line 1 (codes "fill 18446744073709551615") ≡ Some (Command.fill (pos 18446744073709551615)) }
    ensures least { read_line 1 (codes "fill -18446744073709551615") ≡ Some (Command.fill (negsuc 18446744073709551614)) }
{}

/// Lines on the window and on the shape: what may be refused later is read as it stands.
pub fn lines_on_windows_and_shapes()
    ensures view { read_line 2 (codes "view 1,2 3x4 5,6") ≡ Some (Command.view (1 ∷ 2 ∷ []) (3 ∷ 4 ∷ []) (5 ∷ 6 ∷ [])) }
    ensures view_of_nothing { read_line 1 (codes "view 0 0 0") ≡ Some (Command.view (0 ∷ []) (0 ∷ []) (0 ∷ [])) }
    ensures slice { read_line 2 (codes "slice 1 0") ≡ Some (Command.slice 1 0) }
    ensures no_such_axis { read_line 1 (codes "slice 9 12") ≡ Some (Command.slice 9 12) }
    ensures resize { read_line 2 (codes "resize 4x0") ≡ Some (Command.resize (4 ∷ 0 ∷ [])) }
    ensures other_dimensions { read_line 1 (codes "resize 1x2x3x4") ≡ Some (Command.resize (1 ∷ 2 ∷ 3 ∷ 4 ∷ [])) }
    ensures lines { read_line 4 (codes "lines 0") ≡ Some (Command.lines 0) }
{}

/// Lines of one word.
pub fn lines_of_one_word()
    ensures sum { read_line 1 (codes "sum") ≡ Some Command.sum }
    ensures vsum { read_line 2 (codes "vsum") ≡ Some Command.vsum }
    ensures flush { read_line 3 (codes "flush") ≡ Some Command.flush }
    ensures discard { read_line 4 (codes "discard") ≡ Some Command.discard }
    ensures stats { read_line 1 (codes "stats") ≡ Some Command.stats }
{}

/// Lines on private views: the number of a view stands directly behind `@`.
pub fn lines_on_views()
    ensures split { read_line 1 (codes "split 2 1") ≡ Some (Command.split 2 1) }
    ensures split_of_nothing { read_line 4 (codes "split 0 18446744073709551615") ≡ Some (Command.split 0 18446744073709551615) }
    ensures join { read_line 2 (codes "join") ≡ Some Command.join }
    ensures get { read_line 2 (codes "@0 get 3,40") ≡ Some (Command.pget 0 (3 ∷ 40 ∷ [])) }
    ensures set { read_line 1 (codes "@15 set 7 -9") ≡ Some (Command.pset 15 (7 ∷ []) (negsuc 8)) }
    ensures add { read_line 3 (codes "@1 add 1,2,3 4") ≡ Some (Command.padd 1 (1 ∷ 2 ∷ 3 ∷ []) (pos 4)) }
    ensures flush { read_line 1 (codes "@7 flush") ≡ Some (Command.pflush 7) }
    ensures discard { read_line 1 (codes "@18446744073709551615 discard") ≡ Some (Command.pdiscard 18446744073709551615) }
    ensures stats { read_line 4 (codes "@10 stats") ≡ Some (Command.pstats 10) }
{}

/// Lines on private views that are no command.
pub fn refused_views()
    ensures space_behind { read_line 1 (codes "@ 0 get 0") ≡ None }
    ensures no_number { read_line 1 (codes "@ get 0") ≡ None }
    ensures leading_zero { read_line 1 (codes "@01 get 0") ≡ None }
    ensures sign { read_line 1 (codes "@-1 get 0") ≡ None }
    ensures too_great { read_line 1 (codes "@18446744073709551616 flush") ≡ None }
    ensures no_verb { read_line 1 (codes "@0") ≡ None }
    ensures no_more { read_line 1 (codes "@0 ") ≡ None }
    ensures no_line_of_views { read_line 1 (codes "@0 sum") ≡ None }
    ensures twice { read_line 1 (codes "@0 @0 get 0") ≡ None }
    ensures joined { read_line 1 (codes "@0 join") ≡ None }
    ensures number_missing { read_line 1 (codes "split 2") ≡ None }
    ensures number_too_many { read_line 1 (codes "split 2 1 1") ≡ None }
    ensures word_behind { read_line 1 (codes "join 0") ≡ None }
    ensures position_missing { read_line 1 (codes "@0 get") ≡ None }
    ensures coordinate_missing { read_line 2 (codes "@0 get 1") ≡ None }
    ensures words_behind { read_line 1 (codes "@0 stats 0") ≡ None }
{}

/// Lines that are no command for their spaces and words.
pub fn refused_words()
    ensures empty { read_line 1 [] ≡ None }
    ensures before { read_line 1 (codes " sum") ≡ None }
    ensures behind { read_line 1 (codes "sum ") ≡ None }
    ensures two_spaces { read_line 1 (codes "get  0") ≡ None }
    ensures behind_a_position { read_line 1 (codes "get 0 ") ≡ None }
    ensures tab { read_line 1 (codes "get\t0") ≡ None }
    ensures other_letters { read_line 1 (codes "Get 0") ≡ None }
    ensures part_of_a_word { read_line 1 (codes "ge 0") ≡ None }
    ensures more_letters { read_line 1 (codes "gets 0") ≡ None }
    ensures one_word_more { read_line 1 (codes "get 0 0") ≡ None }
    ensures one_word_less { read_line 1 (codes "set 0") ≡ None }
    ensures words_behind { read_line 1 (codes "flush 1") ≡ None }
    ensures no_words { read_line 1 (codes "fill") ≡ None }
{}

/// Lines that are no command for their numbers.
pub fn refused_numbers()
    ensures leading_zero { read_line 1 (codes "get 01") ≡ None }
    ensures two_zeros { read_line 1 (codes "lines 00") ≡ None }
    ensures too_great { read_line 1 (codes "get 18446744073709551616") ≡ None }
    ensures too_great_value { read_line 1 (codes "fill -18446744073709551616") ≡ None }
    ensures minus_zero { read_line 1 (codes "fill -0") ≡ None }
    ensures plus { read_line 1 (codes "fill +1") ≡ None }
    ensures two_signs { read_line 1 (codes "fill --1") ≡ None }
    ensures sign_alone { read_line 1 (codes "fill -") ≡ None }
    ensures sign_of_a_number { read_line 1 (codes "get -1") ≡ None }
    ensures no_digits { read_line 1 (codes "get ") ≡ None }
    ensures letters { read_line 1 (codes "get 1a") ≡ None }
{}

/// Lines that are no command for how many numbers stand together, and what stands between them.
pub fn refused_positions()
    ensures too_many { read_line 1 (codes "get 1,2") ≡ None }
    ensures too_few { read_line 3 (codes "get 1,2") ≡ None }
    ensures comma_behind { read_line 2 (codes "get 1,2,") ≡ None }
    ensures comma_alone { read_line 2 (codes "get ,") ≡ None }
    ensures sizes_of_a_position { read_line 2 (codes "get 1x2") ≡ None }
    ensures position_of_sizes { read_line 2 (codes "view 0,0 1,1 1,1") ≡ None }
    ensures size_too_many { read_line 1 (codes "view 0 1x1 1") ≡ None }
    ensures five_sizes { read_line 4 (codes "resize 1x1x1x1x1") ≡ None }
    ensures size_missing { read_line 2 (codes "resize 4x") ≡ None }
{}

/// The texts of replies.
pub fn texts_of_replies()
    ensures zero { reply_text (Reply.number (pos 0)) ≡ codes "0\n" }
    ensures negative { reply_text (Reply.number (negsuc 2147483647)) ≡ codes "-2147483648\n" }
    ensures great { reply_text (Reply.number (pos 170141183460469231731687303715884105727))
        ≡ codes "170141183460469231731687303715884105727\n" }
    ensures counts { reply_text (Reply.counts 4031 65 18446744073709551615)
        ≡ codes "hits 4031 misses 65 writes 18446744073709551615\n" }
    ensures word { reply_text (Reply.refused Refusal.word) ≡ codes "! word\n" }
    ensures split { reply_text (Reply.refused Refusal.split) ≡ codes "! split\n" }
    ensures size { reply_text (Reply.refused Refusal.size) ≡ codes "! size\n" }
    ensures range { reply_text (Reply.refused Refusal.range) ≡ codes "! range\n" }
    ensures value { reply_text (Reply.refused Refusal.value) ≡ codes "! value\n" }
    ensures memory { reply_text (Reply.refused Refusal.memory) ≡ codes "! memory\n" }
{}
