//! What a caller carries over a whole run, over the definitions alone.

ghost use Rattle.std.specs.Prelude.{ℕ, ◌≡◌, ◌≤◌, ◌+◌, ◌*◌, length};
ghost use Rattle.proto.specs.declared.hits.Hit.{Hit};
ghost use Rattle.proto.specs.declared.limits.TheConstants.{WINDOW, MAX_ANSWER, MAX_POSTS};
ghost use Rattle.proto.specs.declared.dialect.Dialect.{Dialect};
ghost use Rattle.proto.specs.declared.dialect.Dialect.TheVariants.{Strict, Lenient};
ghost use Rattle.proto.specs.Sessions.{most_sessions};
ghost use Rattle.proto.specs.Hits.{hit_room};
ghost use Rattle.session_book.specs.declared.session.TheConstants.{MAX_WAITING};
ghost use Rattle.proto.specs.Grammar.{most_kept};
ghost use Rattle.session_book.specs.Input.{max_unread};
ghost use Rattle.session_book.specs.declared.load.TheConstants.{MAX_KEYS, OUTPUT_BUDGET, SMALL_ANSWER};
ghost use Rattle.session_book.specs.declared.book.TheConstants.{MAX_HIT, MAX_LARGE_HIT};
ghost use Rattle.session_book.specs.Accounts.{StartsAccounts, FeedKeeps, ReadKeeps, SettleKeeps, GiveKeeps, ReadBegins};
ghost use Rattle.session_book.specs.Accounts.{ReadIsWhole, SaidBegins, SaidIsWhole};

/// What was read and what was said of a session, from its opening on, through each call that
/// changes it.
pub fn accounts()
    ensures starts { StartsAccounts }
    ensures feed { FeedKeeps }
    ensures read { ReadKeeps }
    ensures settle { SettleKeeps }
    ensures give { GiveKeeps }
{}

/// What was read and said is a beginning of all that there is to read and to say, and at the end
/// the whole.
pub fn beginnings()
    ensures read { ReadBegins }
    ensures read_whole { ReadIsWhole }
    ensures said { SaidBegins }
    ensures said_whole { SaidIsWhole }
{}

/// The limits of a book in numbers: those that its contracts cite, and the keys of `is_crowded`. A
/// hit of an item needs no more room than is reckoned with, nor do the hits of as many keys with
/// one more lenient answer, or with those of a strict line's keys.
pub fn limits()
    ensures unsettled { WINDOW ≡ 64 }
    ensures unread { (need : ℕ) → max_unread Strict need ≡ 262144 }
    ensures large_unread { max_unread (Lenient 1048512) 1081282 ≡ 1146818 }
    ensures has_room { (d : Dialect) (need : ℕ) → need ≤ most_kept d → need + 65536 ≤ max_unread d need }
    ensures kept { most_kept Strict ≡ 163842 }
    ensures lenient_kept { most_kept (Lenient 1048512) ≡ 1081282 }
    ensures waiting { MAX_WAITING ≡ 1048576 }
    ensures keys { MAX_KEYS ≡ 255 }
    ensures hit { (h : Hit) → 24 + length h.key + length h.value ≤ 131072 → hit_room h ≤ MAX_HIT }
    ensures hits { MAX_KEYS * MAX_HIT + MAX_ANSWER ≤ 41943040 }
    ensures large_hit { (h : Hit) → 24 + length h.key + length h.value ≤ 1048576 → hit_room h ≤ MAX_LARGE_HIT }
    ensures large_hits { MAX_KEYS * MAX_LARGE_HIT + MAX_ANSWER ≤ 275789768 }
    ensures strict_hits { (MAX_KEYS + 1021) * MAX_HIT ≤ 167772160 }
    ensures output { OUTPUT_BUDGET ≡ 67108864 }
    ensures small { SMALL_ANSWER ≡ 16384 }
    ensures sessions { most_sessions Strict ≡ 16777216 }
    ensures lenient_sessions { most_sessions (Lenient 1048512) ≡ 4611686018427387904 }
    ensures posts { MAX_POSTS ≡ 4611686018427387904 }
{}
