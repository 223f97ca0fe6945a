//! Each law is a call that returns.

#[test]
fn laws_of_values_are_called(rt: HostRuntime) {
    iv_value::worked_values();
    iv_expr::worked_values();
}

#[test]
fn laws_of_tokens_are_called(rt: HostRuntime) {
    iv_lex::laws::tokens_of_a_text();
    iv_lex::laws::characters_of_tokens();
}

#[test]
fn laws_of_the_grammar_are_called(rt: HostRuntime) {
    iv_parse_terms::expression_laws();
    iv_parse_terms::condition_laws();
    iv_parse_terms::from_laws();
    iv_parse::laws::one_statement();
    iv_parse::laws::no_other_begins();
    iv_parse::laws::one_script();
}

#[test]
fn laws_of_names_are_called(rt: HostRuntime) {
    iv_laws_fitting::names_are_found();
    iv_resolve_name_faults::refusals_are_told();
}

#[test]
fn laws_of_reasons_are_called(rt: HostRuntime) {
    iv_resolve_reasons::shapes_are_told();
    iv_resolve_reasons::shapes_are_so();
    iv_resolve_reasons::schema_faults_are_told();
    iv_resolve_reasons::rules_are_so();
    iv_resolve_reasons::limit_faults_are_told();
    iv_resolve_reasons::worked_shapes();
    iv_resolve_reasons::worked_rules();
    iv_resolve_reasons::worked_limits();
}

#[test]
fn laws_of_texts_are_called(rt: HostRuntime) {
    iv_laws_answers::statements_are_writable();
    iv_write::laws::what_is_read_can_be_written();
    iv_restate::laws::what_is_written_is_itself();
    iv_dump::laws::checks_can_be_written();
    iv_dump::laws::dumps_make_all();
}

#[test]
fn laws_of_templates_are_called(rt: HostRuntime) {
    iv_template::laws::a_template_has_one_reading();
    iv_template::laws::a_text_that_stops_is_no_template();
    iv_template::laws::values_add_no_name_and_no_semicolon();
    iv_template::laws::literals_are_primaries();
    iv_template::laws::values_stand_at_holes();
    iv_template::laws::values_stand_in_conditions();
    iv_template::laws::values_stand_in_statements();
    iv_template::laws::own_bytes_stay();
}

#[test]
fn laws_of_plans_are_called(rt: HostRuntime) {
    iv_laws_fitting::plans_fit();
    iv_laws_fitting::schemas_suit();
    iv_laws_fitting::proposals_are_well_typed();
}

#[test]
fn laws_of_levels_and_waves_are_called(rt: HostRuntime) {
    iv_machine::one_change_sets_a_row();
    iv_laws_levels::budget_falls();
    iv_laws_levels::changes_are_counted();
    iv_laws_levels::waves_one_by_one();
    iv_laws_levels::level_checks();
    iv_laws_levels::any_order();
    iv_laws_levels::waves_fit();
    iv_laws_levels::net_changes_follow();
    iv_laws_levels::holders_before_a_wave();
    iv_laws_levels::a_change_is_local();
    iv_laws_levels::deletion_closure();
    iv_laws_levels::planned_states_are_sound();
}

#[test]
fn laws_of_rows_are_called(rt: HostRuntime) {
    iv_laws_rows::statements_fit();
    iv_laws_rows::proposals_fit();
    iv_laws_rows::waves_fit();
    iv_laws_rows::waves_start();
    iv_laws_rows::firings_fit();
    iv_laws_rows::levels_keep_rows_fitting();
    iv_laws_rows::levels_are_well_typed();
}

#[test]
fn laws_of_runs_are_called(rt: HostRuntime) {
    iv_step::differences_lead();
    iv_step::plans_keep_the_occasion();
    iv_step::reached_states_are_sound();
    iv_step::refusals_change_nothing();
    iv_step::worked_scripts();
}

#[test]
fn laws_of_answers_are_called(rt: HostRuntime) {
    iv_laws_answers::evaluation_wants_no_memory();
    iv_laws_answers::data_statements_want_no_memory();
    iv_laws_answers::answers_want_no_memory();
    iv_laws_answers::reached_states_fit();
    iv_laws_answers::checks_are_well_typed();
    iv_laws_answers::queries_are_well_typed();
    iv_laws_answers::wrong_shapes_are_of_resolution();
}

#[test]
fn laws_of_accounts_are_called(rt: HostRuntime) {
    iv_laws_answers::accounts_lead_on();
    iv_laws_answers::all_that_begins_ends();
    iv_laws_answers::accounts_tell_violations();
    iv_laws_answers::failures_are_found();
}

#[test]
fn worked_scripts_are_called(rt: HostRuntime) {
    iv_worked::worked_scripts();
}

#[test]
fn worked_statements_are_called(rt: HostRuntime) {
    iv_worked::worked_statements();
}
