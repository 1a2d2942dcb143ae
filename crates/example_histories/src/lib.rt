//! Worked histories of the machine: calls one after another, with the answer of each of them. They check
//! that the definitions of `generational_core` mean what they should. Each function takes nothing and
//! does nothing: its contract is what was computed.
#![tactic(auto)]

ghost use Rattle.std.specs.Prelude.{◌≡◌, ◌-◌, ◌^◌, map as list_map};
ghost use Rattle.generational_errors.specs.declared.error.Location.{Location};
ghost use Rattle.generational_core.specs.Slots.{Fits};
ghost use Rattle.generational_core.specs.Conditions.{fresh};
ghost use Rattle.generational_sessions.specs.Numbered.{erase};
ghost use Rattle.example_histories.specs.Rows.{Tells, TellsFrom, ◌#◌};
ghost use Rattle.example_histories.specs.SessionRows.{RepliesFrom};
ghost use Rattle.example_histories.specs.Histories as row;

use generational_sessions::laws;

/// Owners, slots, strangers, and numbers that run out.
pub fn owners<T>()
    ensures reference_outlives { TellsFrom T 1 0 row.a_reference_outlives_its_first_owner }
    ensures lasting_borrow { TellsFrom T 1 0 row.a_borrow_of_what_lives_on_hinders_no_release }
    ensures release_under_a_reader { TellsFrom T 1 0 row.a_release_under_a_reader_changes_nothing }
    ensures last_release { TellsFrom T 1 0 row.the_last_release_ends_the_boxes }
    ensures leaked_clone { TellsFrom T 1 0 row.a_leaked_clone_keeps_the_boxes }
    ensures last_ticket { TellsFrom T 1 (2 ^ 64 - 1) row.the_last_ticket_is_never_given }
    ensures second_last_ticket { TellsFrom T 1 (2 ^ 64 - 2) row.the_ticket_before_the_last_is_given }
    ensures strange_boxes { TellsFrom T 1 0 row.boxes_of_another_store_reach_nothing }
    ensures strange_owners { TellsFrom T 1 0 row.owners_and_guards_of_another_store_are_unknown }
    ensures last_reference { TellsFrom T 1 0 row.a_value_ends_with_its_last_reference }
    ensures free_slot { TellsFrom T 1 0 row.an_ended_slot_is_free_for_another_box }
    ensures last_generation { TellsFrom T (2 ^ 64 - 1) 0 row.a_slot_that_ends_at_the_last_generation_is_retired }
    ensures next_generation_fits { (u v w : T) (L M R W : Location) →
        Fits (row.one_ended u v w L M R W) (0 # 2) }
    ensures no_new_slot_fits { (u v w : T) (L M R W : Location) →
        Fits (row.one_ended u v w L M R W) (1 # 1) → ⊥ }
    ensures new_slot_fits { (u v w : T) (L M R W : Location) →
        Fits (row.one_live u v w L M R W) (1 # 1) }
    ensures no_name_twice { (u v w : T) (L M R W : Location) →
        Tells (fresh 7 1 0) (row.one_name_twice u v w L M R W) → ⊥ }
    ensures no_other_name_fits { (u v w : T) (L M R W : Location) →
        Fits (row.one_live u v w L M R W) (0 # 2) → ⊥ }
{
    laws::slots_follow_from_names();
}

/// Sessions: what their places hold, and two orders of slots.
pub fn sessions<T>()
    ensures places { RepliesFrom T row.places_keep_what_calls_gave }
    ensures last_first { RepliesFrom T row.the_slot_freed_last_is_taken_again }
    ensures oldest_first { RepliesFrom T row.the_slot_freed_first_is_taken_again }
    // The calls of the two are the same, and so are the replies, ids aside.
    ensures same_calls { (u v w : T) (L M R W : Location) →
        list_map (λ line. line.call) (row.the_slot_freed_last_is_taken_again u v w L M R W)
        ≡ list_map (λ line. line.call) (row.the_slot_freed_first_is_taken_again u v w L M R W) }
    ensures same_replies { (u v w : T) (L M R W : Location) →
        list_map (λ line. erase line.reply) (row.the_slot_freed_last_is_taken_again u v w L M R W)
        ≡ list_map (λ line. erase line.reply)
        (row.the_slot_freed_first_is_taken_again u v w L M R W) }
{}

/// Readers, writers, and boxes that were removed.
pub fn borrows<T>()
    ensures readers { TellsFrom T 1 0 row.readers_of_a_value_leave_by_their_tickets }
    ensures shared_readers { TellsFrom T 1 0 row.readers_of_a_shared_value_leave_by_their_tickets }
    ensures first_reader { TellsFrom T 1 0 row.the_first_of_three_readers_leaves }
    ensures last_reader { TellsFrom T 1 0 row.the_last_of_three_readers_leaves }
    ensures writer { TellsFrom T 1 0 row.a_writer_of_a_value_keeps_others_out }
    ensures shared_writer { TellsFrom T 1 0 row.a_writer_of_a_shared_value_keeps_others_out }
    ensures new_value { TellsFrom T 1 0 row.what_is_set_and_what_is_written_is_read }
    ensures no_setting { TellsFrom T 1 0 row.what_is_borrowed_or_gone_is_not_set }
    ensures ended_box { TellsFrom T 1 0 row.an_ended_box_tells_of_no_other }
    ensures memory { TellsFrom T 1 0 row.memory_may_lack_where_room_is_needed }
{}

/// References, what they point to, and what `point_to` and a release check first.
pub fn references<T>()
    ensures ended_boxes { TellsFrom T 1 0 row.an_ended_box_points_to_itself_alone }
    ensures plain_box { TellsFrom T 1 0 row.a_plain_box_neither_points_nor_is_pointed_to }
    ensures borrowed_last_value { TellsFrom T 1 0 row.a_turn_from_a_borrowed_last_value_is_refused }
    ensures other_value { TellsFrom T 1 0 row.a_reference_turns_to_another_value }
    ensures no_reference { TellsFrom T 1 0 row.a_plain_box_has_no_reference }
    ensures new_location { TellsFrom T 1 0 row.a_turned_box_leads_to_the_location_of_its_new_value }
    ensures lasting_borrow { TellsFrom T 1 0 row.a_turn_is_hindered_by_no_borrow_of_what_lives_on }
    ensures first_box_listed { TellsFrom T 1 0 row.a_release_is_refused_at_the_first_box_listed }
{}
